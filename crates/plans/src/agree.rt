// Refusals 16 and 11: a plan's bits, and its counts.
ghost use Rattle.std.specs.Prelude.{◌≡◌};
ghost use Rattle.plans.specs.Plan.{Headed};
ghost use Rattle.plans.specs.Agreement.{bits_good, counts_agree};

use crate::layout::{cm2_of, cm3_of, cm4_of, im_count, product_count, pu_count, q_deg_of};

const BITS_LIMIT: u8 = 24;

// By so many bits the extended domain may be larger.
const BLOWUP_LIMIT: u8 = 4;

pub fn bits_good(plan: &[u8]) -> bool
    requires { Headed plan.now }
    ensures { result ≡ bits_good plan.now }
{
    let n_bits = plan[0];
    let n_bits_ext = plan[1];
    if BITS_LIMIT < n_bits {
        return false;
    }
    if n_bits_ext < n_bits {
        return false;
    }
    n_bits_ext <= n_bits + BLOWUP_LIMIT
}

pub fn counts_agree(plan: &[u8]) -> bool
    requires { Headed plan.now }
    ensures { result ≡ counts_agree plan.now }
{
    if cm2_of(plan) != 2 * pu_count(plan) {
        return false;
    }
    if cm3_of(plan) != product_count(plan) + im_count(plan) {
        return false;
    }
    cm4_of(plan) == q_deg_of(plan)
}
