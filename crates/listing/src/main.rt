// The list of the program `steps` as a person reads it: the same frames on standard input, and on standard output numbered steps in infix, each block
// below its expression; or the refusal as a sentence. A viewer: what it shows is the proved list, how it shows it is held to stored outputs.
#![tactic(auto)]

mod blame;
mod print;

ghost use Rattle.std.specs.Prelude.{length};
ghost use Rattle.frames.specs.Tables.{tables};
ghost use Rattle.feed.specs.Feeding.{FedAsked};
ghost use Rattle.transcript.specs.Lines.{LineAsked};

use blame::blame_of;
use console::page::flush;
use console::read::read_all;
use feed::feed::{LINE_ROOM, Place};
use frames::count::{EXPRESSION_LIMIT, NODE_LIMIT, REQUEST_LIMIT};
use frames::tables::NODE_WORDS;
use kinds::refusal::NONE;
use kinds::step::STEP_SIZE;
use print::{PAGE_SIZE, print_blocks};
use transcript::conclude::conclude;
use transcript::lines::{Shown, shown_outcome};
use wording::around::{put_opening, put_totals};
use wording::refusal::put_refusal;

// Document 01's room, which always suffices.
const LIST_SIZE: usize = 8192 * STEP_SIZE;

// More than the longest sentence.
const SENTENCE_ROOM: usize = 512;

fn print_list(
    rt: &impl Print,
    nodes: &[u64; NODE_WORDS],
    literals: &[u64; NODE_LIMIT],
    expressions: &[u64; EXPRESSION_LIMIT],
    list: &[u8],
    s: Shown,
)
    requires { LineAsked s (length list.now) }
{
    let mut page = [0u8; PAGE_SIZE];
    let opened = put_opening(&mut page, 0);
    let shown = print_blocks(
        rt,
        nodes,
        literals,
        expressions,
        list,
        &mut page,
        opened,
        s.steps,
    );
    let used = put_totals(&mut page, shown, s.steps, s.counter);
    flush(rt, &page, used);
}

fn print_refusal(rt: &impl Print, number: u8, blame: Option<usize>) {
    let mut page = [0u8; SENTENCE_ROOM];
    let used = put_refusal(&mut page, 0, number, blame);
    flush(rt, &page, used);
}

// The answer to a text that was fed to its end.
fn answer(
    rt: &impl Print,
    p: Place,
    line: &[u8],
    nodes: &mut [u64; NODE_WORDS],
    literals: &mut [u64; NODE_LIMIT],
    expressions: &mut [u64; EXPRESSION_LIMIT],
    requests: &mut [u64; REQUEST_LIMIT],
)
    requires { FedAsked line.now p (tables nodes.old literals.old expressions.old requests.old) }
{
    let mut list = [0u8; LIST_SIZE];
    let r = conclude(p, line, nodes, literals, expressions, requests, &mut list);
    let s = shown_outcome(r);
    if s.refusal != NONE {
        print_refusal(rt, s.refusal, blame_of(r));
        return;
    }
    print_list(rt, nodes, literals, expressions, &list, s);
}

fn main(rt: HostRuntime) {
    let mut nodes = [0u64; NODE_WORDS];
    let mut literals = [0u64; NODE_LIMIT];
    let mut expressions = [0u64; EXPRESSION_LIMIT];
    let mut requests = [0u64; REQUEST_LIMIT];
    let mut line = [0u8; LINE_ROOM];
    match read_all(
        &mut rt.stdin(),
        &mut line,
        &mut nodes,
        &mut literals,
        &mut expressions,
        &mut requests,
    ) {
        Err(f) => print_refusal(&rt, f.refusal.into(), f.node),
        Ok(p) => answer(
            &rt,
            p,
            &line,
            &mut nodes,
            &mut literals,
            &mut expressions,
            &mut requests,
        ),
    }
}
