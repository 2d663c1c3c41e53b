// The record of each expression in the domain "n".
ghost use Rattle.std.specs.Prelude.{get_or};
ghost use Rattle.map_records.specs.Tables.{Planned};
ghost use Rattle.plan_tables.specs.Tables.{im_place};
ghost use Rattle.plan_tables.specs.Cells.{ImsAsked, ImsGiven};
ghost use Rattle.plan_tables.specs.Records.{PlacesAsked, PlacesGiven, RecordsAsked, RecordsGiven};

use frames::count::EXPRESSION_LIMIT;
use plans::layout::{PAIR_SIZE, cm1_of, cm2_of, im_at, im_count, number_at, product_count};
use sections::map_section::RECORD_LIMIT;

// An expression without one.
pub const NO_RECORD: u16 = 0xffff;

// Of the first `count` columns, from the last to the first, so that an expression's first one stays.
fn place_columns(
    columns: &[u16; RECORD_LIMIT],
    temporaries: &[u16; RECORD_LIMIT],
    count: usize,
    exp2pol: &mut [u16; EXPRESSION_LIMIT],
)
    requires { PlacesAsked columns.now count exp2pol.old }
    ensures { PlacesGiven columns.now temporaries.now count exp2pol.old exp2pol.new }
{
    for k in (0..count).rev() {
        let e = columns[k] as usize;
        exp2pol[e] = temporaries[k];
    }
}

// Of the intermediates, whose cm stand behind those of the grand products.
fn place_intermediates(
    plan: &[u8],
    cms: &[u16; RECORD_LIMIT],
    exp2pol: &mut [u16; EXPRESSION_LIMIT],
)
    requires { Planned plan.now × ImsAsked plan.now exp2pol.old }
    ensures { ImsGiven plan.now exp2pol.old exp2pol.new (λ i. get_or cms.now (im_place plan.now i) 0) }
{
    let count = im_count(plan);
    let at = im_at(plan);
    let place = cm1_of(plan) + cm2_of(plan) + product_count(plan);
    for i in 0..count {
        let e = number_at(plan, at + PAIR_SIZE * i);
        exp2pol[e] = cms[place + i];
    }
}

// Into a table with no record yet, from the first `count` columns and their records, and from cm_n.
pub fn fill_exp2pol(
    plan: &[u8],
    columns: &[u16; RECORD_LIMIT],
    temporaries: &[u16; RECORD_LIMIT],
    count: usize,
    cms: &[u16; RECORD_LIMIT],
    exp2pol: &mut [u16; EXPRESSION_LIMIT],
)
    requires { RecordsAsked plan.now columns.now count exp2pol.old }
    ensures { RecordsGiven plan.now columns.now temporaries.now count cms.now exp2pol.old exp2pol.new }
{
    place_columns(columns, temporaries, count, exp2pol);
    place_intermediates(plan, cms, exp2pol);
}
