// A list printed block by block, through a page that is written out before what comes next might not fit.
ghost use Rattle.std.specs.Prelude.{◌≤◌, length};
ghost use Rattle.listing.specs.Printing.{PrintAsked};

use console::page::flush;
use frames::count::{EXPRESSION_LIMIT, NODE_LIMIT};
use frames::tables::NODE_WORDS;
use kinds::step::nth_step;
use readable::block::{block_end, put_head};
use readable::step::put_step;

// A node takes no more of its expression's text: `(`, ` * -9223372036854775808` and `)`.
const NODE_ROOM: usize = 25;

// The words about an expression, and any other line.
const WORDS_ROOM: usize = 256;

// The head of a block is the longest of what is put at a time: each node has one use, so an expression has at most all of them.
const ROOM: usize = NODE_LIMIT * NODE_ROOM + WORDS_ROOM;

// So much is put before the page is written.
const FILL: usize = 32768;

pub const PAGE_SIZE: usize = FILL + ROOM;

// Writes the page where the next text might not fit.
fn make_room(rt: &impl Print, page: &[u8], used: usize) -> usize
    requires { used ≤ length page.now }
    ensures { (result ≤ used) × (result ≤ 32768) }
{
    if FILL < used {
        flush(rt, page, used);
        return 0;
    }
    used
}

// The steps from one up to another, numbered from 1.
fn print_steps(
    rt: &impl Print,
    nodes: &[u64; NODE_WORDS],
    literals: &[u64; NODE_LIMIT],
    list: &[u8],
    page: &mut [u8],
    used: usize,
    from: usize,
    end: usize,
) -> usize
    requires { PrintAsked (length list.now) (length page.old) used end }
    ensures { result ≤ length page.new }
{
    let mut at = used;
    for k in from..end {
        let line = make_room(rt, page, at);
        at = put_step(nodes, literals, page, line, k + 1, nth_step(list, k));
    }
    at
}

// The first `steps` steps of a list, in blocks. Each is looked at twice: for the end of its block, and for its line.
pub fn print_blocks(
    rt: &impl Print,
    nodes: &[u64; NODE_WORDS],
    literals: &[u64; NODE_LIMIT],
    expressions: &[u64; EXPRESSION_LIMIT],
    list: &[u8],
    page: &mut [u8],
    used: usize,
    steps: usize,
) -> usize
    requires { PrintAsked (length list.now) (length page.old) used steps }
    ensures { result ≤ length page.new }
{
    let mut at = used;
    let mut from: usize = 0;
    // No `for`: each block says where the next one begins.
    while from < steps {
        let last = block_end(list, from, steps);
        let end = last + 1;
        let head = make_room(rt, page, at);
        let below = put_head(
            nodes,
            literals,
            expressions,
            page,
            head,
            nth_step(list, last).dest,
        );
        at = print_steps(rt, nodes, literals, list, page, below, from, end);
        from = end;
    }
    at
}
