// A step in infix: `3: tmp2 = cm0 * cm1'`.
ghost use Rattle.std.specs.Prelude.{◌≤◌, length};
ghost use Rattle.wording.specs.Pages.{Puts};

use crate::reference::put_reference;
use frames::count::NODE_LIMIT;
use frames::tables::NODE_WORDS;
use kinds::step::Step;
use kinds::step_op::StepOp;
use wording::sign::put_sign;
use wording::text::{put_decimal, put_text};

// What a step computes.
fn put_value(
    nodes: &[u64; NODE_WORDS],
    literals: &[u64; NODE_LIMIT],
    page: &mut [u8],
    used: usize,
    s: Step,
) -> usize
    requires { used ≤ length page.old }
    ensures { Puts used result (length page.new) }
{
    let first = put_reference(nodes, literals, page, used, s.s0);
    if s.op == StepOp::COPY {
        return first;
    }
    let sign = put_sign(page, first, s.op);
    let second = put_reference(nodes, literals, page, sign, s.s1);
    if s.op != StepOp::MULADD {
        return second;
    }
    let plus = put_sign(page, second, StepOp::ADD);
    put_reference(nodes, literals, page, plus, s.s2)
}

// The line of the step with this number.
pub fn put_step(
    nodes: &[u64; NODE_WORDS],
    literals: &[u64; NODE_LIMIT],
    page: &mut [u8],
    used: usize,
    number: usize,
    s: Step,
) -> usize
    requires { used ≤ length page.old }
    ensures { Puts used result (length page.new) }
{
    let numbered = put_decimal(page, used, number as u64);
    let colon = put_text(page, numbered, b": ");
    let dest = put_reference(nodes, literals, page, colon, s.dest);
    let equals = put_text(page, dest, b" = ");
    let value = put_value(nodes, literals, page, equals, s);
    put_text(page, value, b"\n")
}
