// The program of document 01: a pool and its requests as lower-case hexadecimal on standard input, one frame a line; on standard output the first
// list, one step a line, and the temporary counter, or a refusal alone.
#![tactic(auto)]

ghost use Rattle.std.specs.Prelude.{length};
ghost use Rattle.frames.specs.Tables.{tables};
ghost use Rattle.feed.specs.Feeding.{FedAsked};
ghost use Rattle.transcript.specs.Lines.{LineAsked};

use console::page::{PAGE_SIZE, flush, put};
use console::read::read_all;
use feed::feed::{LINE_ROOM, Place};
use frames::count::{EXPRESSION_LIMIT, NODE_LIMIT, REQUEST_LIMIT};
use frames::tables::NODE_WORDS;
use kinds::step::STEP_SIZE;
use output::line::{LINE_SIZE, refusal_line};
use transcript::conclude::conclude;
use transcript::lines::{Shown, output_line, shown_outcome};

// Document 01's room, which always suffices.
const LIST_SIZE: usize = 8192 * STEP_SIZE;

fn print_lines(
    rt: &impl Print,
    nodes: &[u64; NODE_WORDS],
    literals: &[u64; NODE_LIMIT],
    list: &[u8],
    s: Shown,
)
    requires { LineAsked s (length list.now) }
{
    let mut page = [0u8; PAGE_SIZE];
    let mut line = [0u8; LINE_SIZE];
    let mut used: usize = 0;
    for k in 0..s.steps + 1 {
        let n = output_line(nodes, literals, list, s, k, &mut line);
        used = put(rt, &mut page, used, &line, n);
    }
    flush(rt, &page, used);
}

// A refusal while reading: nothing more is read.
fn print_refusal(rt: &impl Print, number: u8) {
    let mut line = [0u8; LINE_SIZE];
    let n = refusal_line(number, &mut line);
    flush(rt, &line, n);
}

// The answer to a text that was fed to its end.
fn answer(
    rt: &impl Print,
    p: Place,
    line: &[u8],
    nodes: &mut [u64; NODE_WORDS],
    literals: &mut [u64; NODE_LIMIT],
    expressions: &mut [u64; EXPRESSION_LIMIT],
    requests: &mut [u64; REQUEST_LIMIT],
)
    requires { FedAsked line.now p (tables nodes.old literals.old expressions.old requests.old) }
{
    let mut list = [0u8; LIST_SIZE];
    let r = conclude(p, line, nodes, literals, expressions, requests, &mut list);
    print_lines(rt, nodes, literals, &list, shown_outcome(r));
}

fn main(rt: HostRuntime) {
    let mut nodes = [0u64; NODE_WORDS];
    let mut literals = [0u64; NODE_LIMIT];
    let mut expressions = [0u64; EXPRESSION_LIMIT];
    let mut requests = [0u64; REQUEST_LIMIT];
    let mut line = [0u8; LINE_ROOM];
    match read_all(
        &mut rt.stdin(),
        &mut line,
        &mut nodes,
        &mut literals,
        &mut expressions,
        &mut requests,
    ) {
        Err(f) => print_refusal(&rt, f.refusal.into()),
        Ok(p) => answer(
            &rt,
            p,
            &line,
            &mut nodes,
            &mut literals,
            &mut expressions,
            &mut requests,
        ),
    }
}
