// The parts of a plan without temporary columns: the first columns, the intermediates, the pieces of the quotient.
ghost use Rattle.std.specs.Prelude.{◌≡◌, []};
ghost use Rattle.pool.specs.Entries.{entries_in};
ghost use Rattle.plans.specs.Plan.{cm1, im_count, q_deg};
ghost use Rattle.map_records.specs.Mapping.{fresh, cm1s, intermediates, quotient_dim, quotients};
ghost use Rattle.map_records.specs.Tables.{HeldAsked, HeldGiven, QuotientAsked, QuotientGiven, ImAsked, ImGiven};

use crate::dim::exp_dim;
use crate::records::add_pair;
use exp_dims::leaf::BASE;
use frames::count::EXPRESSION_LIMIT;
use frames::tables::NODE_WORDS;
use plans::layout::{PAIR_SIZE, cm1_of, cm2_of, cm3_of, im_at, im_count, number_at, q_deg_of};
use sections::map_section::RECORD_LIMIT;
use sections::section::Section;

// Each cm has two records.
pub const CM_LIMIT: usize = RECORD_LIMIT / 2;

pub fn map_cm1(
    plan: &[u8],
    sections: &mut [u16; RECORD_LIMIT],
    dims: &mut [u16; RECORD_LIMIT],
    cmdims: &mut [u16],
) -> usize
    requires { HeldAsked plan.now sections.old dims.old cmdims.old 0 (fresh plan.now) }
    ensures { HeldGiven plan.now sections.old dims.old cmdims.old 0 (fresh plan.now) sections.new dims.new cmdims.new result (λ p. cm1s plan.now p (cm1 plan.now)) }
{
    let count = cm1_of(plan);
    for i in 0..count {
        add_pair(sections, dims, 2 * i, Section::CM1_N, BASE);
        cmdims[i] = BASE;
    }
    2 * count
}

// The dimension of each is that of its expression at its turn.
pub fn map_intermediates(
    plan: &[u8],
    nodes: &[u64; NODE_WORDS],
    expressions: &[u64; EXPRESSION_LIMIT],
    table: &[u8],
    sections: &mut [u16; RECORD_LIMIT],
    dims: &mut [u16; RECORD_LIMIT],
    cmdims: &mut [u16],
    before: usize,
) -> usize
    requires { ImAsked nodes.now expressions.now (entries_in table.now) plan.now sections.old dims.old cmdims.old before }
    ensures { ImGiven nodes.now expressions.now (entries_in table.now) plan.now sections.old dims.old cmdims.old before sections.new dims.new cmdims.new result }
{
    let count = im_count(plan);
    let at = im_at(plan);
    let z = cm1_of(plan) + cm2_of(plan);
    for i in 0..count {
        let e = number_at(plan, at + PAIR_SIZE * i);
        let d = exp_dim(nodes, expressions, table, cmdims, e);
        add_pair(sections, dims, before + 2 * i, Section::CM3_N, d);
        cmdims[z + i] = d;
    }
    before + 2 * count
}

pub fn map_quotients(
    plan: &[u8],
    sections: &mut [u16; RECORD_LIMIT],
    dims: &mut [u16; RECORD_LIMIT],
    cmdims: &mut [u16],
    before: usize,
    qdim: u16,
) -> usize
    requires { QuotientAsked plan.now sections.old dims.old cmdims.old before qdim }
    ensures { QuotientGiven plan.now sections.old dims.old cmdims.old before qdim sections.new dims.new cmdims.new result }
{
    let count = q_deg_of(plan);
    let at = cm1_of(plan) + cm2_of(plan) + cm3_of(plan);
    for i in 0..count {
        add_pair(sections, dims, before + 2 * i, Section::CM4_N, qdim);
        cmdims[at + i] = qdim;
    }
    before + 2 * count
}
