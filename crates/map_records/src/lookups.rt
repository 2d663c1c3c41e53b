// The pu: two columns each, and temporary columns of f and t.
ghost use Rattle.std.specs.Prelude.{◌+◌, ◌<◌};
ghost use Rattle.pool.specs.Entries.{entries_in};
ghost use Rattle.plans.specs.Plan.{pu_count};
ghost use Rattle.map_records.specs.Mapping.{lookups};
ghost use Rattle.map_records.specs.Tables.{PartAsked, PartGiven};

use crate::column::add_column;
use crate::dim::lookup_dim;
use crate::records::add_pair;
use frames::count::EXPRESSION_LIMIT;
use frames::tables::NODE_WORDS;
use plans::layout::{HEAD_SIZE, LOOKUP_SIZE, cm1_of, number_at, pu_count};
use sections::map_section::RECORD_LIMIT;
use sections::section::Section;

fn map_lookup(
    plan: &[u8],
    nodes: &[u64; NODE_WORDS],
    expressions: &[u64; EXPRESSION_LIMIT],
    table: &[u8],
    sections: &mut [u16; RECORD_LIMIT],
    dims: &mut [u16; RECORD_LIMIT],
    cmdims: &mut [u16],
    seen: &mut [u8],
    n: usize,
    i: usize,
) -> usize
    requires { (i < pu_count plan.now) × PartAsked nodes.now expressions.now (entries_in table.now) plan.now sections.old dims.old cmdims.old seen.old n (λ p. lookups plan.now p i) }
    ensures { PartGiven nodes.now expressions.now (entries_in table.now) plan.now sections.old dims.old cmdims.old seen.old n (λ p. lookups plan.now p i) sections.new dims.new cmdims.new seen.new result (λ p. lookups plan.now p (i + 1)) }
{
    let f = number_at(plan, HEAD_SIZE + LOOKUP_SIZE * i);
    let t = number_at(plan, HEAD_SIZE + LOOKUP_SIZE * i + 1);
    let d = lookup_dim(nodes, expressions, table, cmdims, f, t);
    let h = cm1_of(plan) + 2 * i;
    add_pair(sections, dims, n, Section::CM2_N, d);
    add_pair(sections, dims, n + 2, Section::CM2_N, d);
    cmdims[h] = d;
    cmdims[h + 1] = d;
    let after = add_column(sections, dims, seen, n + 4, f, d);
    add_column(sections, dims, seen, after, t, d)
}

pub fn map_lookups(
    plan: &[u8],
    nodes: &[u64; NODE_WORDS],
    expressions: &[u64; EXPRESSION_LIMIT],
    table: &[u8],
    sections: &mut [u16; RECORD_LIMIT],
    dims: &mut [u16; RECORD_LIMIT],
    cmdims: &mut [u16],
    seen: &mut [u8],
    before: usize,
) -> usize
    requires { PartAsked nodes.now expressions.now (entries_in table.now) plan.now sections.old dims.old cmdims.old seen.old before (λ p. lookups plan.now p 0) }
    ensures { PartGiven nodes.now expressions.now (entries_in table.now) plan.now sections.old dims.old cmdims.old seen.old before (λ p. lookups plan.now p 0) sections.new dims.new cmdims.new seen.new result (λ p. lookups plan.now p (pu_count plan.now)) }
{
    let count = pu_count(plan);
    let mut n = before;
    for i in 0..count {
        n = map_lookup(
            plan,
            nodes,
            expressions,
            table,
            sections,
            dims,
            cmdims,
            seen,
            n,
            i,
        );
    }
    n
}
