// Is there room for a list that was planned? Refusal 9. Only the caller's own table of words is written.
ghost use Rattle.std.specs.Prelude.{◌≡◌, ◌*◌, ◌≤◌, length, leb};
ghost use Rattle.kinds.specs.Steps.{step_size};
ghost use Rattle.codegen.specs.Building.{lists};
ghost use Rattle.constraint_lists.specs.Measuring.{CloseWordsAsks, closed_words, closed_more, RoomsAsk, RoomsGiven, MeasureAsked, MeasureGiven};

use builds::build::{Which, list_size};
use builds::result::grow;
use codegen::build::{Sizes, list_fits};
use codegen::commit::has_room;
use context::layout::{blocks_of, steps_of, temporaries_of};
use frames::count::EXPRESSION_LIMIT;
use frames::tables::NODE_WORDS;
use requests::make::size_all;
use requests::place::place_all;
use starkinfo_codegen::order::JOB_LIMIT;

// How many steps more the closing product of n blocks is.
fn more_steps(n: usize, closes: bool) -> usize
    ensures { result ≡ closed_more closes n }
{
    if closes {
        if 0 < n {
            return 1;
        }
    }
    0
}

// Where there is a closing product, the last of n blocks has a step more.
fn close_words(words: &mut [u64; JOB_LIMIT], n: usize, closes: bool)
    requires { CloseWordsAsks words.old n }
    ensures { words.new ≡ closed_words closes words.old n }
{
    if closes {
        if 0 < n {
            grow(words, n - 1);
        }
    }
}

// Room for the three lists of n blocks, which have so many steps.
fn rooms(
    expressions: &[u64; EXPRESSION_LIMIT],
    words: &[u64; JOB_LIMIT],
    first: &[u8],
    i: &[u8],
    last: &[u8],
    n: usize,
    m: usize,
    steps: usize,
) -> Option<Sizes>
    requires { RoomsAsk words.now n m steps }
    ensures { RoomsGiven expressions.now words.now (lists first.now i.now last.now) n m result }
{
    let without_plain = list_size(words, expressions, n, m, Which::I);
    let without_any = list_size(words, expressions, n, m, Which::Last);
    if !list_fits(first, steps) {
        return None;
    }
    if !list_fits(i, without_plain) {
        return None;
    }
    if !list_fits(last, without_any) {
        return None;
    }
    Some(Sizes {
        first: steps,
        i: without_plain,
        last: without_any,
    })
}

// The first n jobs, in a pool of m expressions. Where there is room, leaves the words of all blocks: those of the context, those of the jobs, and the last with the closing product.
pub fn measure(
    nodes: &[u64; NODE_WORDS],
    expressions: &[u64; EXPRESSION_LIMIT],
    jobs: &[u64; JOB_LIMIT],
    words: &mut [u64; JOB_LIMIT],
    context: &[u8],
    list: &[u8],
    first: &[u8],
    i: &[u8],
    last: &[u8],
    m: usize,
    n: usize,
    closes: bool,
) -> Option<Sizes>
    requires { MeasureAsked nodes.now expressions.now jobs.now words.old context.now list.now m n }
    ensures { MeasureGiven nodes.now expressions.now jobs.now words.old words.new context.now list.now (lists first.now i.now last.now) m n closes result }
{
    let blocks = blocks_of(context);
    let at = steps_of(context);
    let t = temporaries_of(context);
    let own = size_all(nodes, expressions, jobs, n);
    let more = more_steps(blocks + n, closes);
    if !has_room(list, at + own + more, t + (own - n)) {
        return None;
    }
    place_all(nodes, expressions, jobs, words, n, blocks);
    close_words(words, blocks + n, closes);
    rooms(
        expressions,
        words,
        first,
        i,
        last,
        blocks + n,
        m,
        at + own + more,
    )
}
