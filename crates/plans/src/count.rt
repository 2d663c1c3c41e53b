// Refusal 9 of a plan: how many records `map` would make.
ghost use Rattle.std.specs.Prelude.{◌≡◌, ◌*◌, ◌<◌, length};
ghost use Rattle.plans.specs.Plan.{Is, Headed, Whole, number_limit, pu_count};
ghost use Rattle.plans.specs.Columns.{lookups, columns, pair_records, most_columns, fits};
ghost use Rattle.plans.specs.Counting.{Asked, Counted, MarkAsked, MarkGiven, LookupsAsked, ProductsAsked};

use crate::layout::{
    HEAD_SIZE, LOOKUP_SIZE, PAIR_SIZE, cm1_of, im_at, im_count, number_at, product_at,
    product_count, pu_count, q_deg_of,
};

const RECORD_LIMIT: usize = 4096;

// A cm has a record in each of the two domains.
const CM_RECORDS: usize = 2;

// A pu has two cm, h1 and h2, besides that of its grand product.
const LOOKUP_CMS: usize = 2;

// f and t of a pu, num and den of a grand product.
const NAMED: usize = 2;

// That of q and that of f.
const LAST_RECORDS: usize = 2;

// A number of two bytes is below it.
pub const NUMBER_LIMIT: usize = 65536;

const SEEN: u8 = 1;

// The records that are no temporary column's.
fn pair_records(plan: &[u8]) -> usize
    requires { Headed plan.now }
    ensures { Is result (pair_records plan.now) (16 * number_limit) }
{
    let stage2 = LOOKUP_CMS * pu_count(plan);
    let stage3 = product_count(plan) + im_count(plan);
    CM_RECORDS * (cm1_of(plan) + stage2 + stage3 + q_deg_of(plan)) + LAST_RECORDS
}

// There are no more temporary columns than expressions that the pu and the grand products name.
fn most_columns(plan: &[u8]) -> usize
    requires { Headed plan.now }
    ensures { Is result (most_columns plan.now) (8 * number_limit) }
{
    NAMED * (pu_count(plan) + product_count(plan))
}

// The intermediates are seen, so that none gets a column. `seen` has a byte for each expression that is named.
pub fn mark_intermediates(plan: &[u8], seen: &mut [u8])
    requires { MarkAsked plan.now seen.old }
    ensures { MarkGiven plan.now seen.old seen.new }
{
    let n = im_count(plan);
    let at = im_at(plan);
    for i in 0..n {
        let e = number_at(plan, at + PAIR_SIZE * i);
        seen[e] = SEEN;
    }
}

// How many columns an expression adds.
pub fn ask(seen: &mut [u8], e: usize) -> usize
    requires { e < length seen.old }
    ensures { Asked seen.old e result seen.new }
{
    if seen[e] == SEEN {
        return 0;
    }
    seen[e] = SEEN;
    1
}

// The columns of f and t of each pu.
fn count_lookups(plan: &[u8], seen: &mut [u8]) -> usize
    requires { LookupsAsked plan.now seen.old }
    ensures { Counted number_limit plan.now (lookups plan.now (pu_count plan.now)) result (2 * number_limit) seen.new }
{
    let n = pu_count(plan);
    let mut count: usize = 0;
    for i in 0..n {
        let f = HEAD_SIZE + LOOKUP_SIZE * i;
        count += ask(seen, number_at(plan, f));
        count += ask(seen, number_at(plan, f + 1));
    }
    count
}

// With those of num and den of each grand product, after so many of the pu.
fn count_products(plan: &[u8], seen: &mut [u8], before: usize) -> usize
    requires { ProductsAsked plan.now before seen.old }
    ensures { Counted number_limit plan.now (columns plan.now) result (8 * number_limit) seen.new }
{
    let n = product_count(plan);
    let mut count = before;
    for i in 0..n {
        let num = product_at(plan, i);
        count += ask(seen, number_at(plan, num));
        count += ask(seen, number_at(plan, num + 1));
    }
    count
}

// At most 4,096 records. Where those that are no temporary column's are too many already, or there is room for any columns, no expression is looked at: the
// loops are short.
pub fn fits(plan: &[u8]) -> bool
    requires { Whole plan.now }
    ensures { result ≡ fits plan.now }
{
    let pairs = pair_records(plan);
    if RECORD_LIMIT < pairs {
        return false;
    }
    if pairs + most_columns(plan) <= RECORD_LIMIT {
        return true;
    }
    let mut seen = [0u8; NUMBER_LIMIT];
    mark_intermediates(plan, &mut seen);
    let lookups = count_lookups(plan, &mut seen);
    let columns = count_products(plan, &mut seen, lookups);
    pairs + columns <= RECORD_LIMIT
}
