// How many steps a tree takes, before any is written.
ghost use Rattle.starkinfo_codegen.specs.Emitting.{CountAsked, CountGiven, SizeAsked, SizeGiven};

use crate::operation::operation_of;
use crate::words::NODE_LIMIT;
use frames::tables::NODE_WORDS;

// The steps of an operand, and so the temporaries that it takes.
fn count_steps(nodes: &[u64; NODE_WORDS], fused: bool, i: u16) -> usize
    requires { CountAsked nodes.now fused i }
    ensures { CountGiven nodes.now fused i result }
{
    if NODE_LIMIT <= i {
        return 0;
    }
    let Some(o) = operation_of(nodes, fused, i) else {
        return 0;
    };
    let a = count_steps(nodes, fused, o.a);
    let b = count_steps(nodes, fused, o.b);
    let c = count_steps(nodes, fused, o.c);
    a + b + c + 1
}

// The steps of the block of an expression with this root. The block takes one temporary fewer.
pub fn block_size(nodes: &[u64; NODE_WORDS], fused: bool, root: u16) -> usize
    requires { SizeAsked nodes.now root }
    ensures { SizeGiven nodes.now fused root result }
{
    count_steps(nodes, fused, root).max(1)
}
