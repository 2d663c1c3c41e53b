// The grand products: a column z each, and temporary columns of num and den.
ghost use Rattle.std.specs.Prelude.{◌+◌, ◌<◌};
ghost use Rattle.plans.specs.Plan.{product_count};
ghost use Rattle.map_records.specs.Mapping.{products};
ghost use Rattle.map_records.specs.Tables.{PlainAsked, PlainGiven};

use crate::column::add_column;
use crate::records::add_pair;
use exp_dims::leaf::EXTENSION;
use plans::layout::{cm1_of, cm2_of, number_at, product_at, product_count};
use sections::map_section::RECORD_LIMIT;
use sections::section::Section;

fn map_product(
    plan: &[u8],
    sections: &mut [u16; RECORD_LIMIT],
    dims: &mut [u16; RECORD_LIMIT],
    cmdims: &mut [u16],
    seen: &mut [u8],
    n: usize,
    i: usize,
) -> usize
    requires { (i < product_count plan.now) × PlainAsked plan.now sections.old dims.old cmdims.old seen.old n (λ p. products plan.now p i) }
    ensures { PlainGiven plan.now sections.old dims.old cmdims.old seen.old n (λ p. products plan.now p i) sections.new dims.new cmdims.new seen.new result (λ p. products plan.now p (i + 1)) }
{
    let at = product_at(plan, i);
    let num = number_at(plan, at);
    let den = number_at(plan, at + 1);
    let z = cm1_of(plan) + cm2_of(plan) + i;
    add_pair(sections, dims, n, Section::CM3_N, EXTENSION);
    cmdims[z] = EXTENSION;
    let after = add_column(sections, dims, seen, n + 2, num, EXTENSION);
    add_column(sections, dims, seen, after, den, EXTENSION)
}

pub fn map_products(
    plan: &[u8],
    sections: &mut [u16; RECORD_LIMIT],
    dims: &mut [u16; RECORD_LIMIT],
    cmdims: &mut [u16],
    seen: &mut [u8],
    before: usize,
) -> usize
    requires { PlainAsked plan.now sections.old dims.old cmdims.old seen.old before (λ p. products plan.now p 0) }
    ensures { PlainGiven plan.now sections.old dims.old cmdims.old seen.old before (λ p. products plan.now p 0) sections.new dims.new cmdims.new seen.new result (λ p. products plan.now p (product_count plan.now)) }
{
    let count = product_count(plan);
    let mut n = before;
    for i in 0..count {
        n = map_product(plan, sections, dims, cmdims, seen, n, i);
    }
    n
}
