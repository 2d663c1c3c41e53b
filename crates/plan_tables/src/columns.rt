// The expressions with a temporary column, in the order of their columns.
ghost use Rattle.std.specs.Prelude.{◌*◌, ◌<◌, [], length};
ghost use Rattle.frames.specs.Order.{expression_limit};
ghost use Rattle.plans.specs.Plan.{number_limit, pu_count};
ghost use Rattle.plans.specs.Columns.{record_limit, lookups};
ghost use Rattle.plans.specs.Counting.{Tells, known};
ghost use Rattle.plan_tables.specs.Listed.{Listed};
ghost use Rattle.plan_tables.specs.Gathered.{ColumnPut, Fitting, Gathered, ProductsAsked, ProductsGiven, columns_of};

use frames::count::EXPRESSION_LIMIT;
use plans::count::{ask, mark_intermediates};
use plans::layout::{HEAD_SIZE, LOOKUP_SIZE, number_at, product_at, product_count, pu_count};
use sections::map_section::RECORD_LIMIT;

// Expression e behind the n that are there, unless it is seen.
fn put_column(seen: &mut [u8], columns: &mut [u16; RECORD_LIMIT], n: usize, e: usize) -> usize
    requires { (e < number_limit) × (e < length seen.old) × (n < record_limit) }
    ensures { ColumnPut seen.old seen.new columns.old columns.new n e result }
{
    if ask(seen, e) == 0 {
        return n;
    }
    columns[n] = e as u16;
    n + 1
}

// f and t of each pu.
fn lookup_columns(plan: &[u8], seen: &mut [u8], columns: &mut [u16; RECORD_LIMIT]) -> usize
    requires { Fitting plan.now × Tells expression_limit (known plan.now []) seen.old }
    ensures { Gathered plan.now columns.old (2 * pu_count plan.now) seen.new columns.new result (lookups plan.now (pu_count plan.now)) }
{
    let count = pu_count(plan);
    let mut n: usize = 0;
    for i in 0..count {
        let f = HEAD_SIZE + LOOKUP_SIZE * i;
        n = put_column(seen, columns, n, number_at(plan, f));
        n = put_column(seen, columns, n, number_at(plan, f + 1));
    }
    n
}

// num and den of each grand product, after those of the pu.
fn product_columns(
    plan: &[u8],
    seen: &mut [u8],
    columns: &mut [u16; RECORD_LIMIT],
    before: usize,
) -> usize
    requires { ProductsAsked plan.now seen.old columns.old before }
    ensures { ProductsGiven plan.now seen.old columns.old before columns.new result }
{
    let count = product_count(plan);
    let mut n = before;
    for i in 0..count {
        let num = product_at(plan, i);
        n = put_column(seen, columns, n, number_at(plan, num));
        n = put_column(seen, columns, n, number_at(plan, num + 1));
    }
    n
}

// For a plan that fits; answers how many.
pub fn column_expressions(plan: &[u8], columns: &mut [u16; RECORD_LIMIT]) -> usize
    requires { Fitting plan.now }
    ensures { Listed columns.old columns.new result (columns_of plan.now) }
{
    let mut seen = [0u8; EXPRESSION_LIMIT];
    mark_intermediates(plan, &mut seen);
    let lookups = lookup_columns(plan, &mut seen, columns);
    product_columns(plan, &mut seen, columns, lookups)
}
