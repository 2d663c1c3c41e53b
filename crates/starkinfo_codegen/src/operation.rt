// What a node computes, and from which operands. Fusing is decided here.
ghost use Rattle.std.specs.Prelude.{◌≡◌, ◌<◌};
ghost use Rattle.kinds.specs.KindBytes.{add};
ghost use Rattle.starkinfo_codegen.specs.Words.{node_of_words};
ghost use Rattle.starkinfo_codegen.specs.Operations.{operation, product_at, fused_of, computes};

use crate::words::{first_child, kind_of, second_child, third_child};
use frames::tables::NODE_WORDS;
use kinds::kind::Kind;
use kinds::step_op::StepOp;

// An operand is a node, or one of two numbers that no node has.
#[derive(Clone, Copy)]
pub struct Operation {
    pub op: u8,
    pub a: u16,
    pub b: u16,
    pub c: u16,
}

// The literal that the node itself brings.
pub const LITERAL: u16 = 4096;

pub const NOTHING: u16 = 4097;

impl Operation {
    fn new(op: u8, a: u16, b: u16, c: u16) -> Operation
        ensures { result ≡ operation op a b c }
    {
        Operation { op, a, b, c }
    }
}

// The product at node `m`, fused with the operand `c`.
fn product(nodes: &[u64; NODE_WORDS], m: u16, c: u16) -> Operation
    requires { m < 4096 }
    ensures { result ≡ product_at nodes.now m c }
{
    let a = first_child(nodes, m);
    let b = second_child(nodes, m);
    Operation::new(StepOp::MULADD, a, b, c)
}

// An add of these children, with a product among them fused into it: the first child's, else the second's.
fn find_muladd(nodes: &[u64; NODE_WORDS], a: u16, b: u16) -> Operation
    requires { (a < 4096) × (b < 4096) }
    ensures { result ≡ fused_of nodes.now a b }
{
    if kind_of(nodes, a) == Kind::MUL {
        return product(nodes, a, b);
    }
    if kind_of(nodes, b) == Kind::MUL {
        return product(nodes, b, a);
    }
    Operation::new(StepOp::ADD, a, b, NOTHING)
}

// What a node computes: for an add, with a product fused into it or not. A leaf computes nothing. Inlined, since its answer would go through memory
// at each level of the recursions that ask, which are thousands of calls deep.
#[inline(always)]
pub fn operation_of(nodes: &[u64; NODE_WORDS], fused: bool, i: u16) -> Option<Operation>
    requires { (i < 4096) × ((node_of_words nodes.now i).kind ≡ add → ((node_of_words nodes.now i).c0 < 4096) × ((node_of_words nodes.now i).c1 < 4096)) }
    ensures { computes nodes.now fused i result }
{
    let kind = kind_of(nodes, i);
    let a = first_child(nodes, i);
    let b = second_child(nodes, i);
    match kind {
        Kind::ADD => {
            if fused {
                Some(find_muladd(nodes, a, b))
            } else {
                Some(Operation::new(StepOp::ADD, a, b, NOTHING))
            }
        }
        Kind::SUB..=Kind::MUL => Some(Operation::new(kind, a, b, NOTHING)),
        Kind::MULADD => Some(Operation::new(StepOp::MULADD, a, b, third_child(nodes, i))),
        Kind::ADDC => Some(Operation::new(StepOp::ADD, a, LITERAL, NOTHING)),
        Kind::MULC => Some(Operation::new(StepOp::MUL, a, LITERAL, NOTHING)),
        Kind::NEG => Some(Operation::new(StepOp::SUB, LITERAL, a, NOTHING)),
        _ => None,
    }
}
