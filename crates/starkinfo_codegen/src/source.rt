// References and steps as emission makes them.
ghost use Rattle.std.specs.Prelude.{◌≡◌, ◌+◌, ◌<◌, ◌≤◌};
ghost use Rattle.starkinfo_codegen.specs.Words.{node_of_words};
ghost use Rattle.starkinfo_codegen.specs.Sources.{leaf_in, Operand, source_in, OwnAsked, own_in, copy_step};

use crate::operation::{LITERAL, NOTHING, Operation};
use crate::words::{id_of, kind_of, next_of};
use frames::tables::NODE_WORDS;
use kinds::kind::Kind;
use kinds::reference::Reference;
use kinds::step::Step;
use kinds::step_op::StepOp;

// A leaf's own reference at a row.
pub fn leaf_reference(nodes: &[u64; NODE_WORDS], row: u8, i: u16) -> Reference
    requires { (i < 4096) × (row + (node_of_words nodes.now i).next ≤ 255) }
    ensures { result ≡ leaf_in nodes.now row i }
{
    let kind = kind_of(nodes, i);
    match kind {
        Kind::NUMBER => Reference::number(i),
        Kind::CM..=Kind::Q => Reference::plain(kind, row + next_of(nodes, i), id_of(nodes, i)),
        Kind::PUBLIC..=Kind::EVAL => Reference::plain(kind, 0, id_of(nodes, i)),
        Kind::X_DIV_X_SUB_XI..=Kind::X_DIV_X_SUB_WXI => Reference::plain(kind, 0, 0),
        _ => Reference::plain(Kind::X, 0, 0),
    }
}

// An operand of node `i` that took so many steps, after which `t` is free: the last of its temporaries, or a leaf's own reference.
fn source(
    nodes: &[u64; NODE_WORDS],
    row: u8,
    i: u16,
    operand: u16,
    t: usize,
    taken: usize,
) -> Reference
    requires { Operand nodes.now row operand × (taken ≤ t) × (t ≤ 65536) }
    ensures { result ≡ source_in nodes.now row i operand t taken }
{
    if operand == LITERAL {
        return Reference::number(i);
    }
    if operand == NOTHING {
        return Reference::blank();
    }
    if taken == 0 {
        return leaf_reference(nodes, row, operand);
    }
    Reference::plain(Kind::TMP, 0, (t - 1) as u16)
}

// The step of node `i`, from temporary `t` on, where its operands took so many steps.
pub fn own_step(
    nodes: &[u64; NODE_WORDS],
    row: u8,
    i: u16,
    o: Operation,
    t: usize,
    a: usize,
    b: usize,
    c: usize,
) -> Step
    requires { OwnAsked nodes.now row o t a b c }
    ensures { result ≡ own_in nodes.now row i o t a b c }
{
    Step {
        op: o.op,
        count: StepOp::sources_needed(o.op),
        origin: Step::NO_ORIGIN,
        dest: Reference::plain(Kind::TMP, 0, (t + a + b + c) as u16),
        s0: source(nodes, row, i, o.a, t + a, a),
        s1: source(nodes, row, i, o.b, t + a + b, b),
        s2: source(nodes, row, i, o.c, t + a + b + c, c),
    }
}

// A leaf at the root is copied.
pub fn copy_step(dest: Reference, r: Reference) -> Step
    ensures { result ≡ copy_step dest r }
{
    Step {
        op: StepOp::COPY,
        count: 1,
        origin: Step::NO_ORIGIN,
        dest,
        s0: r,
        s1: Reference::blank(),
        s2: Reference::blank(),
    }
}
