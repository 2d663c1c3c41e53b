// Blocks that were planned, committed to a context and its list. Where they do not fit, nothing lent has changed.
ghost use Rattle.std.specs.Prelude.{◌≡◌, suc, ◌+◌, ◌<◌, ◌≤◌, length, get_or, set};
ghost use Rattle.builds.specs.Raw.{start_of};
ghost use Rattle.builds.specs.Results.{inserted};
ghost use Rattle.codegen.specs.Written.{fits};
ghost use Rattle.codegen.specs.Committing.{step_bound, CommitAsked, PlainGiven, ResultGiven, PutAsked};

use crate::store::store;
use builds::result::{find_block, grow, insert_copy, start_of};
use context::layout::{blocks_of, steps_of, temporaries_of};
use frames::count::EXPRESSION_LIMIT;
use frames::tables::NODE_WORDS;
use kinds::reference::Reference;
use kinds::refusal::{Refusal, Refused};
use kinds::step::STEP_SIZE;
use requests::generate::TEMPORARY_LIMIT;
use requests::make::{make_all, size_all};
use requests::place::place_all;
use starkinfo_codegen::order::JOB_LIMIT;

// A number of a step, too, is below the limit of a temporary's.
const STEP_LIMIT: usize = TEMPORARY_LIMIT;

// Whether a list has room for so many steps, and a counter for so many temporaries.
pub fn has_room(list: &[u8], steps: usize, temporaries: usize) -> bool
    requires { steps ≤ step_bound }
    ensures { result ≡ fits (length list.now) steps temporaries }
{
    if list.len() < STEP_SIZE * steps {
        return false;
    }
    if STEP_LIMIT <= steps {
        return false;
    }
    temporaries < TEMPORARY_LIMIT
}

// Puts the copy of a result at the end of block k, in a list of `end` steps.
fn put_result(words: &mut [u64; JOB_LIMIT], list: &mut [u8], k: usize, end: usize, dest: Reference)
    requires { PutAsked words.old list.old k end }
    ensures { (words.new ≡ set words.old k (get_or words.old k 0 + 1024)) × (list.new ≡ inserted list.old (start_of words.old (suc k)) end dest) }
{
    let pos = start_of(words, k + 1);
    insert_copy(list, pos, end, dest);
    grow(words, k);
}

// The blocks of the first n jobs, where no result is asked for.
pub fn commit(
    nodes: &[u64; NODE_WORDS],
    expressions: &[u64; EXPRESSION_LIMIT],
    jobs: &[u64; JOB_LIMIT],
    marks: &mut [u8; JOB_LIMIT],
    words: &mut [u64; JOB_LIMIT],
    context: &mut [u8],
    list: &mut [u8],
    n: usize,
) -> Result<(), Refused>
    requires { CommitAsked nodes.now expressions.now jobs.now marks.old words.old context.old list.old n }
    ensures { PlainGiven nodes.now expressions.now jobs.now marks.old words.old context.old context.new list.old list.new n result }
{
    let blocks = blocks_of(context);
    let at = steps_of(context);
    let t = temporaries_of(context);
    let steps = size_all(nodes, expressions, jobs, n);
    if !has_room(list, at + steps, t + (steps - n)) {
        return Err(Refusal::Full.into());
    }
    place_all(nodes, expressions, jobs, words, n, blocks);
    make_all(nodes, expressions, jobs, list, n, at, t);
    store(
        context,
        marks,
        words,
        blocks + n,
        at + steps,
        t + (steps - n),
    );
    Ok(())
}

// The same, with a copy of the result of `cell` into `dest`.
pub fn commit_result(
    nodes: &[u64; NODE_WORDS],
    expressions: &[u64; EXPRESSION_LIMIT],
    jobs: &[u64; JOB_LIMIT],
    marks: &mut [u8; JOB_LIMIT],
    words: &mut [u64; JOB_LIMIT],
    context: &mut [u8],
    list: &mut [u8],
    n: usize,
    cell: usize,
    dest: Reference,
) -> Result<(), Refused>
    requires { CommitAsked nodes.now expressions.now jobs.now marks.old words.old context.old list.old n }
    ensures { ResultGiven nodes.now expressions.now jobs.now marks.old words.old context.old context.new list.old list.new n cell dest result }
{
    let blocks = blocks_of(context);
    let at = steps_of(context);
    let t = temporaries_of(context);
    let steps = size_all(nodes, expressions, jobs, n);
    place_all(nodes, expressions, jobs, words, n, blocks);
    let Some(k) = find_block(words, blocks + n, cell) else {
        return Err(Refusal::NoBlock.into());
    };
    if !has_room(list, at + steps + 1, t + (steps - n)) {
        return Err(Refusal::Full.into());
    }
    make_all(nodes, expressions, jobs, list, n, at, t);
    put_result(words, list, k, at + steps, dest);
    store(
        context,
        marks,
        words,
        blocks + n,
        at + steps + 1,
        t + (steps - n),
    );
    Ok(())
}
