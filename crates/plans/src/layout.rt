// A plan's record: numbers of two bytes each, the high one first. The first 13 are its head; the parts follow one after the other.
ghost use Rattle.std.specs.Prelude.{◌+◌, ◌*◌, ◌≤◌, ◌<◌, length};
ghost use Rattle.plans.specs.Agreement.{cm_count};
ghost use Rattle.plans.specs.Plan.{Is, number_limit, number_at, Headed, cm1, cm2, cm3, cm4, q_deg, c_exp, pu_count, pe_count, ci_count, im_count, qs_count, q2exp_count, pe_at, im_at, qs_at, q2exp_at, product_count, product_at};

use kinds::big_endian::u16_at;

pub const HEAD_SIZE: usize = 13;

// How many numbers a pu has, and any other entry of two.
pub const LOOKUP_SIZE: usize = 4;

pub const PAIR_SIZE: usize = 2;

pub const NUMBER_SIZE: usize = 2;

const CM1: usize = 1;

const CM2: usize = 2;

const CM3: usize = 3;

const CM4: usize = 4;

const Q_DEG: usize = 5;

const C_EXP: usize = 6;

const PU: usize = 7;

const PE: usize = 8;

const CI: usize = 9;

const IM: usize = 10;

const QS: usize = 11;

const Q2EXP: usize = 12;

pub fn number_at(plan: &[u8], k: usize) -> usize
    requires { 2 * k + 2 ≤ length plan.now }
    ensures { Is result (number_at plan.now k) number_limit }
{
    u16_at(plan, NUMBER_SIZE * k) as usize
}

pub fn cm1_of(plan: &[u8]) -> usize
    requires { Headed plan.now }
    ensures { Is result (cm1 plan.now) number_limit }
{
    number_at(plan, CM1)
}

pub fn cm2_of(plan: &[u8]) -> usize
    requires { Headed plan.now }
    ensures { Is result (cm2 plan.now) number_limit }
{
    number_at(plan, CM2)
}

pub fn cm3_of(plan: &[u8]) -> usize
    requires { Headed plan.now }
    ensures { Is result (cm3 plan.now) number_limit }
{
    number_at(plan, CM3)
}

pub fn cm4_of(plan: &[u8]) -> usize
    requires { Headed plan.now }
    ensures { Is result (cm4 plan.now) number_limit }
{
    number_at(plan, CM4)
}

// How many cm numbers there are.
pub fn cm_count(plan: &[u8]) -> usize
    requires { Headed plan.now }
    ensures { Is result (cm_count plan.now) (4 * number_limit) }
{
    cm1_of(plan) + cm2_of(plan) + cm3_of(plan) + cm4_of(plan)
}

pub fn q_deg_of(plan: &[u8]) -> usize
    requires { Headed plan.now }
    ensures { Is result (q_deg plan.now) number_limit }
{
    number_at(plan, Q_DEG)
}

pub fn c_exp_of(plan: &[u8]) -> usize
    requires { Headed plan.now }
    ensures { Is result (c_exp plan.now) number_limit }
{
    number_at(plan, C_EXP)
}

pub fn pu_count(plan: &[u8]) -> usize
    requires { Headed plan.now }
    ensures { Is result (pu_count plan.now) number_limit }
{
    number_at(plan, PU)
}

pub fn im_count(plan: &[u8]) -> usize
    requires { Headed plan.now }
    ensures { Is result (im_count plan.now) number_limit }
{
    number_at(plan, IM)
}

pub fn qs_count(plan: &[u8]) -> usize
    requires { Headed plan.now }
    ensures { Is result (qs_count plan.now) number_limit }
{
    number_at(plan, QS)
}

pub fn q2exp_count(plan: &[u8]) -> usize
    requires { Headed plan.now }
    ensures { Is result (q2exp_count plan.now) number_limit }
{
    number_at(plan, Q2EXP)
}

// The pe and the ci, which stand one after the other.
fn pair_count(plan: &[u8]) -> usize
    requires { Headed plan.now }
    ensures { Is result (pe_count plan.now + ci_count plan.now) (2 * number_limit) }
{
    number_at(plan, PE) + number_at(plan, CI)
}

// The grand products: of the pu, the pe and the ci.
pub fn product_count(plan: &[u8]) -> usize
    requires { Headed plan.now }
    ensures { Is result (product_count plan.now) (3 * number_limit) }
{
    pu_count(plan) + pair_count(plan)
}

// ---- where each part begins

fn pe_at(plan: &[u8]) -> usize
    requires { Headed plan.now }
    ensures { Is result (pe_at plan.now) (5 * number_limit) }
{
    HEAD_SIZE + LOOKUP_SIZE * pu_count(plan)
}

pub fn im_at(plan: &[u8]) -> usize
    requires { Headed plan.now }
    ensures { Is result (im_at plan.now) (9 * number_limit) }
{
    pe_at(plan) + PAIR_SIZE * pair_count(plan)
}

pub fn qs_at(plan: &[u8]) -> usize
    requires { Headed plan.now }
    ensures { Is result (qs_at plan.now) (11 * number_limit) }
{
    im_at(plan) + PAIR_SIZE * im_count(plan)
}

pub fn q2exp_at(plan: &[u8]) -> usize
    requires { Headed plan.now }
    ensures { Is result (q2exp_at plan.now) (12 * number_limit) }
{
    qs_at(plan) + qs_count(plan)
}

// Where the num of a grand product stands; its den follows.
pub fn product_at(plan: &[u8], i: usize) -> usize
    requires { Headed plan.now × (i < 3 * number_limit) }
    ensures { Is result (product_at plan.now i) (11 * number_limit) }
{
    let pu = pu_count(plan);
    if i < pu {
        return HEAD_SIZE + LOOKUP_SIZE * i + PAIR_SIZE;
    }
    pe_at(plan) + PAIR_SIZE * (i - pu)
}
