// Generation and the evaluator for a program in another language: each function takes numbers and lent bytes, asks nothing of them, and answers with a number: 0 where it
// was done, else the refusal's, and then nothing lent has changed.
#![tactic(auto)]

pub mod map;
pub mod plan;
pub mod run;
pub mod search;

ghost use Rattle.codegen.specs.Building.{lists};
ghost use Rattle.host.specs.Numbered.{FreshNumbered, ServeNumbered, BuildNumbered, EvaluateNumbered, wanted};

use codegen::asked::Wanted;
use codegen::build::build_code;
use codegen::serve::serve;
use context::store::fresh;
use evaluator::evaluate::evaluate;
use kinds::refusal::{NONE, Refusal, answer_number};

// Makes a context fresh. Where its size is not a context's it is a malformed record.
pub fn enonkasse_fresh(context: &mut [u8]) -> u8
    ensures { FreshNumbered context.old context.new result }
{
    if fresh(context) {
        return NONE;
    }
    Refusal::Malformed.into()
}

// Serves the requests among the frames; the last of them asks for a result of this kind and id, or, where both are 0, for none.
pub fn enonkasse_serve(frames: &[u8], kind: u8, id: u16, context: &mut [u8], list: &mut [u8]) -> u8
    ensures { ServeNumbered frames.now (wanted kind id) context.old context.new list.old list.new result }
{
    answer_number(&serve(frames, Wanted { kind, id }, context, list))
}

// Builds the first, i and last lists, and says how many steps each has.
pub fn enonkasse_build(
    frames: &[u8],
    context: &mut [u8],
    list: &[u8],
    first: &mut [u8],
    i: &mut [u8],
    last: &mut [u8],
    sizes: &mut [usize; 3],
) -> u8
    ensures { BuildNumbered frames.now context.old context.new list.now (lists first.old i.old last.old) (lists first.new i.new last.new) sizes.old sizes.new result }
{
    let built = build_code(frames, context, list, first, i, last);
    if let Ok(made) = built {
        sizes[0] = made.first;
        sizes[1] = made.i;
        sizes[2] = made.last;
    }
    answer_number(&built)
}

// Runs a list downwards modulo a number over the pool of the frames, from the values given; puts the final value of every cell written at the front of `out`
// (12 bytes each: kind, prime, id, value), and says how many there are.
pub fn enonkasse_evaluate(
    frames: &[u8],
    list: &[u8],
    modulus: u32,
    values: &[u64],
    out: &mut [u8],
    cells: &mut [usize; 1],
) -> u8
    ensures { EvaluateNumbered frames.now list.now modulus values.now out.old out.new cells.old cells.new result }
{
    let evaluated = evaluate(frames, list, modulus, values, out);
    if let Ok(written) = evaluated {
        cells[0] = written;
    }
    answer_number(&evaluated)
}
