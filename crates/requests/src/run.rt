// The whole run from bytes: a slice of frames, or a text of them, read, admitted and served on a fresh context.
ghost use Rattle.requests.specs.Runs.{RunGiven, TextRunGiven};

use crate::whole::{Totals, whole_run};
use frames::count::{EXPRESSION_LIMIT, NODE_LIMIT, REQUEST_LIMIT};
use frames::read::fill;
use frames::tables::NODE_WORDS;
use frames::text::fill_text;
use kinds::refusal::Refused;

// Frames, each behind its length (2 bytes, the high one first). On a refusal the list has not changed.
pub fn run(s: &[u8], list: &mut [u8]) -> Result<Totals, Refused>
    ensures { RunGiven s.now list.old list.new result }
{
    let mut nodes = [0u64; NODE_WORDS];
    let mut literals = [0u64; NODE_LIMIT];
    let mut expressions = [0u64; EXPRESSION_LIMIT];
    let mut requests = [0u64; REQUEST_LIMIT];
    let c = fill(
        s,
        &mut nodes,
        &mut literals,
        &mut expressions,
        &mut requests,
    )?;
    whole_run(&nodes, &expressions, &requests, list, c)
}

// Lower-case hexadecimal, one frame a line.
pub fn run_text(text: &[u8], list: &mut [u8]) -> Result<Totals, Refused>
    ensures { TextRunGiven text.now list.old list.new result }
{
    let mut nodes = [0u64; NODE_WORDS];
    let mut literals = [0u64; NODE_LIMIT];
    let mut expressions = [0u64; EXPRESSION_LIMIT];
    let mut requests = [0u64; REQUEST_LIMIT];
    let c = fill_text(
        text,
        &mut nodes,
        &mut literals,
        &mut expressions,
        &mut requests,
    )?;
    whole_run(&nodes, &expressions, &requests, list, c)
}
