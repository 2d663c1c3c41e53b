// Refusal 3 of a plan: every expression that it names is there, and so is every cm and q number that a leaf reads.
ghost use Rattle.std.specs.Prelude.{◌≡◌, ◌≤◌};
ghost use Rattle.frames.specs.Order.{node_limit};
ghost use Rattle.plans.specs.Plan.{Whole, every, pu_count, product_count, im_count, q2exp_count};
ghost use Rattle.plans.specs.Agreement.{lookup_there, product_there, im_there, q2exp_there, names_there, leaf_there, leaves_there};

use crate::layout::{
    HEAD_SIZE, LOOKUP_SIZE, PAIR_SIZE, c_exp_of, im_at, im_count, number_at, product_at,
    product_count, pu_count, q2exp_at, q2exp_count,
};
use frames::tables::{NODE_WORDS, kind_at};
use kinds::kind::Kind;
use pool::words::id;

fn lookups_there(plan: &[u8], m: usize) -> bool
    requires { Whole plan.now }
    ensures { result ≡ every (lookup_there plan.now m) (pu_count plan.now) }
{
    let n = pu_count(plan);
    for i in 0..n {
        let f = HEAD_SIZE + LOOKUP_SIZE * i;
        if m <= number_at(plan, f) {
            return false;
        }
        if m <= number_at(plan, f + 1) {
            return false;
        }
    }
    true
}

fn products_there(plan: &[u8], m: usize) -> bool
    requires { Whole plan.now }
    ensures { result ≡ every (product_there plan.now m) (product_count plan.now) }
{
    let n = product_count(plan);
    for i in 0..n {
        let num = product_at(plan, i);
        if m <= number_at(plan, num) {
            return false;
        }
        if m <= number_at(plan, num + 1) {
            return false;
        }
    }
    true
}

fn intermediates_there(plan: &[u8], m: usize) -> bool
    requires { Whole plan.now }
    ensures { result ≡ every (im_there plan.now m) (im_count plan.now) }
{
    let n = im_count(plan);
    let at = im_at(plan);
    for i in 0..n {
        if m <= number_at(plan, at + PAIR_SIZE * i) {
            return false;
        }
    }
    true
}

fn q2exp_there(plan: &[u8], m: usize) -> bool
    requires { Whole plan.now }
    ensures { result ≡ every (q2exp_there plan.now m) (q2exp_count plan.now) }
{
    let n = q2exp_count(plan);
    let at = q2exp_at(plan);
    for i in 0..n {
        if m <= number_at(plan, at + i) {
            return false;
        }
    }
    true
}

// Every expression that a plan names, in a pool of m.
pub fn names_there(plan: &[u8], m: usize) -> bool
    requires { Whole plan.now }
    ensures { result ≡ names_there plan.now m }
{
    if !lookups_there(plan, m) {
        return false;
    }
    if !products_there(plan, m) {
        return false;
    }
    if !intermediates_there(plan, m) {
        return false;
    }
    if !q2exp_there(plan, m) {
        return false;
    }
    c_exp_of(plan) < m
}

fn leaf_there(cms: usize, qs: usize, kind: u8, id: usize) -> bool
    ensures { result ≡ leaf_there cms qs kind id }
{
    match kind {
        Kind::CM => id < cms,
        Kind::Q => id < qs,
        _ => true,
    }
}

// The leaves of a pool, those of no expression too.
pub fn leaves_there(nodes: &[u64; NODE_WORDS], n: usize, cms: usize, qs: usize) -> bool
    requires { n ≤ node_limit }
    ensures { result ≡ leaves_there nodes.now n cms qs }
{
    for i in 0..n {
        if !leaf_there(cms, qs, kind_at(nodes, i), id(nodes, i)) {
            return false;
        }
    }
    true
}
