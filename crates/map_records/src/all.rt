// All parts of a plan, one after the other.
ghost use Rattle.pool.specs.Entries.{entries_in};
ghost use Rattle.map_records.specs.All.{AllAsked, AllGiven};

use crate::dim::exp_dim;
use crate::lookups::map_lookups;
use crate::products::map_products;
use crate::records::add_record;
use crate::rest::{map_cm1, map_intermediates, map_quotients};
use exp_dims::leaf::EXTENSION;
use frames::count::EXPRESSION_LIMIT;
use frames::tables::NODE_WORDS;
use plans::count::mark_intermediates;
use plans::layout::c_exp_of;
use sections::map_section::RECORD_LIMIT;
use sections::section::Section;

// How many records there are, and the dimension of the quotient.
#[derive(Drop)]
pub struct Records {
    pub count: usize,
    pub q_dim: u16,
}

pub fn map_all(
    plan: &[u8],
    nodes: &[u64; NODE_WORDS],
    expressions: &[u64; EXPRESSION_LIMIT],
    table: &[u8],
    sections: &mut [u16; RECORD_LIMIT],
    dims: &mut [u16; RECORD_LIMIT],
    cmdims: &mut [u16],
) -> Records
    requires { AllAsked nodes.now expressions.now (entries_in table.now) plan.now sections.old dims.old cmdims.old }
    ensures { AllGiven nodes.now expressions.now (entries_in table.now) plan.now sections.old dims.old cmdims.old sections.new dims.new cmdims.new result }
{
    let mut seen = [0u8; EXPRESSION_LIMIT];
    mark_intermediates(plan, &mut seen);
    let first = map_cm1(plan, sections, dims, cmdims);
    let second = map_lookups(
        plan,
        nodes,
        expressions,
        table,
        sections,
        dims,
        cmdims,
        &mut seen,
        first,
    );
    let third = map_products(plan, sections, dims, cmdims, &mut seen, second);
    let fourth = map_intermediates(
        plan,
        nodes,
        expressions,
        table,
        sections,
        dims,
        cmdims,
        third,
    );
    let c_exp = c_exp_of(plan);
    let dim = exp_dim(nodes, expressions, table, cmdims, c_exp);
    let last = map_quotients(plan, sections, dims, cmdims, fourth, dim);
    add_record(sections, dims, last, Section::Q_2NS, dim);
    add_record(sections, dims, last + 1, Section::F_2NS, EXTENSION);
    Records {
        count: last + 2,
        q_dim: dim,
    }
}
