// The record numbers that lists read q by.
ghost use Rattle.std.specs.Prelude.{◌<◌};
ghost use Rattle.plans.specs.Plan.{Whole, number_limit, qs};
ghost use Rattle.plan_tables.specs.Listed.{Listed};

use plans::count::NUMBER_LIMIT;
use plans::layout::{number_at, qs_at, qs_count};

// Answers how many; there is room for all that a record can have.
pub fn fill_qs(plan: &[u8], numbers: &mut [u16; NUMBER_LIMIT]) -> usize
    requires { Whole plan.now }
    ensures { (Listed numbers.old numbers.new result (qs plan.now)) × (result < number_limit) }
{
    let count = qs_count(plan);
    let at = qs_at(plan);
    for i in 0..count {
        numbers[i] = number_at(plan, at + i) as u16;
    }
    count
}
