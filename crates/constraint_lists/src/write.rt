// A list that was planned and for which there is room, written: nothing can fail here.
ghost use Rattle.std.specs.Prelude.{◌≡◌};
ghost use Rattle.codegen.specs.Building.{lists};
ghost use Rattle.constraint_lists.specs.Writing.{CloseListAsks, closed_bytes, CopiesAsk, CopiesGiven, WriteAsked, WriteGiven};

use builds::build::{Which, copy_list};
use builds::flags::mark_released;
use codegen::store::store;
use constraint_pieces::close::put_closing;
use context::layout::{blocks_of, steps_of, temporaries_of};
use frames::count::EXPRESSION_LIMIT;
use frames::tables::NODE_WORDS;
use requests::make::{make_all, size_all};
use starkinfo_codegen::order::JOB_LIMIT;

// The closing product after the first `end` steps, where there is one and any of n blocks.
fn close_list(list: &mut [u8], end: usize, n: usize, closes: bool)
    requires { CloseListAsks list.old end n closes }
    ensures { list.new ≡ closed_bytes closes n list.old end }
{
    if closes {
        if 0 < n {
            put_closing(list, end);
        }
    }
}

// The three lists of n blocks in a pool of m expressions.
fn copy_lists(
    expressions: &[u64; EXPRESSION_LIMIT],
    words: &[u64; JOB_LIMIT],
    list: &[u8],
    first: &mut [u8],
    i: &mut [u8],
    last: &mut [u8],
    n: usize,
    m: usize,
)
    requires { CopiesAsk expressions.now words.now list.now (lists first.old i.old last.old) n m }
    ensures { CopiesGiven expressions.now words.now list.now (lists first.old i.old last.old) n m (lists first.new i.new last.new) }
{
    copy_list(list, words, expressions, first, n, m, Which::First);
    copy_list(list, words, expressions, i, n, m, Which::I);
    copy_list(list, words, expressions, last, n, m, Which::Last);
}

// The first n jobs, in a pool of m expressions: the context's list, the first, i and last lists, and the context after the build.
pub fn write_list(
    nodes: &[u64; NODE_WORDS],
    expressions: &[u64; EXPRESSION_LIMIT],
    jobs: &[u64; JOB_LIMIT],
    marks: &mut [u8; JOB_LIMIT],
    words: &[u64; JOB_LIMIT],
    context: &mut [u8],
    list: &mut [u8],
    first: &mut [u8],
    i: &mut [u8],
    last: &mut [u8],
    m: usize,
    n: usize,
    closes: bool,
)
    requires { WriteAsked nodes.now expressions.now jobs.now marks.old words.now context.old list.old (lists first.old i.old last.old) m n closes }
    ensures { WriteGiven nodes.now expressions.now jobs.now marks.old words.now context.old context.new list.old list.new (lists first.old i.old last.old) (lists first.new i.new last.new) m n closes }
{
    let blocks = blocks_of(context);
    let at = steps_of(context);
    let t = temporaries_of(context);
    let own = size_all(nodes, expressions, jobs, n);
    make_all(nodes, expressions, jobs, list, n, at, t);
    close_list(list, at + own, blocks + n, closes);
    copy_lists(expressions, words, list, first, i, last, blocks + n, m);
    mark_released(expressions, marks, m);
    store(context, marks, words, 0, 0, t + (own - n));
}
