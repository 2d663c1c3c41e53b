// The steps of a tree, in postorder, left operand first: `eval_exp`.
ghost use Rattle.std.specs.Prelude.{◌≡◌, ◌+◌, ◌*◌, ◌≤◌, length};
ghost use Rattle.kinds.specs.Write.{write};
ghost use Rattle.kinds.specs.Steps.{step_size, step_bytes};
ghost use Rattle.starkinfo_codegen.specs.Sources.{OwnAsked, own_in};
ghost use Rattle.starkinfo_codegen.specs.Emitting.{Asked, StepAsked, Given};

use crate::operation::{Operation, operation_of};
use crate::source::own_step;
use crate::words::{NODE_LIMIT, count_of};
use frames::tables::NODE_WORDS;
use kinds::step::put_nth_step;

// A node's own step, as number `at`. Never inlined: what it holds would widen every frame of the recursion.
#[inline(never)]
fn put_own(
    nodes: &[u64; NODE_WORDS],
    list: &mut [u8],
    row: u8,
    i: u16,
    o: Operation,
    at: usize,
    t: usize,
    a: usize,
    b: usize,
    c: usize,
)
    requires own { OwnAsked nodes.now row o t a b c }
    requires room { step_size * at + step_size ≤ length list.old }
    ensures { list.new ≡ write list.old (step_size * at) (step_bytes (own_in nodes.now row i o t a b c)) }
{
    put_nth_step(list, at, own_step(nodes, row, i, o, t, a, b, c));
}

// Writes the steps of a node from step number `at` and temporary `t` on, and answers how many.
#[cycle(eval_exp_eval_step)]
pub fn eval_step(
    nodes: &[u64; NODE_WORDS],
    list: &mut [u8],
    row: u8,
    fused: bool,
    at: usize,
    t: usize,
    i: u16,
) -> usize
    requires { StepAsked nodes.now fused row at t i (length list.old) }
    ensures { Given nodes.now fused row at t i list.old list.new result }
{
    let Some(o) = operation_of(nodes, fused, i) else {
        return 0;
    };
    let a = eval_exp(nodes, list, row, fused, at, t, o.a);
    let b = eval_exp(nodes, list, row, fused, at + a, t + a, o.b);
    let c = eval_exp(nodes, list, row, fused, at + a + b, t + a + b, o.c);
    let before = a + b + c;
    put_own(nodes, list, row, i, o, at + before, t, a, b, c);
    before + 1
}

// Writes the steps of an operand from step number `at` and temporary `t` on, and answers how many: each takes one temporary, and the last holds
// the value. A leaf takes none, and neither does what is no node.
#[cycle(eval_exp_eval_step)]
pub fn eval_exp(
    nodes: &[u64; NODE_WORDS],
    list: &mut [u8],
    row: u8,
    fused: bool,
    at: usize,
    t: usize,
    i: u16,
) -> usize
    requires { Asked nodes.now fused row at t i (length list.old) }
    ensures { Given nodes.now fused row at t i list.old list.new result }
{
    if NODE_LIMIT <= i || count_of(nodes, i) == 0 {
        return 0;
    }
    eval_step(nodes, list, row, fused, at, t, i)
}
