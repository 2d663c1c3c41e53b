// Is a byte record a plan?
ghost use Rattle.std.specs.Prelude.{◌≡◌};
ghost use Rattle.plans.specs.Plan.{Whole, ascending, is_plan};

use crate::layout::{
    HEAD_SIZE, NUMBER_SIZE, PAIR_SIZE, im_at, im_count, number_at, q2exp_at, q2exp_count,
};

fn ascends(plan: &[u8]) -> bool
    requires { Whole plan.now }
    ensures { result ≡ ascending plan.now }
{
    let n = im_count(plan);
    let at = im_at(plan);
    for i in 0..n.saturating_sub(1) {
        if number_at(plan, at + PAIR_SIZE * (i + 1)) <= number_at(plan, at + PAIR_SIZE * i) {
            return false;
        }
    }
    true
}

// As long as its counts say, with the expressions of its intermediates ascending.
pub fn is_plan(plan: &[u8]) -> bool
    ensures { result ≡ is_plan plan.now }
{
    if plan.len() < NUMBER_SIZE * HEAD_SIZE {
        return false;
    }
    if plan.len() != NUMBER_SIZE * (q2exp_at(plan) + q2exp_count(plan)) {
        return false;
    }
    ascends(plan)
}
