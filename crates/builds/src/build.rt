// The three lists of a build (`build_code`): every block in order, and twice less those that are skipped.
ghost use Rattle.std.specs.Prelude.{◌≡◌, List, ℕ, ◌≤◌, length};
ghost use Rattle.kinds.specs.Write.{write};
ghost use Rattle.frames.specs.Order.{expression_limit};
ghost use Rattle.kinds.specs.Steps.{steps_bytes};
ghost use Rattle.builds.specs.Numbered.{stand_to, in_table, skips_in, skips_at, taken_at, taken_to, list_to, TakenAsks, BlocksAsk, CopyTakenAsks};
ghost use Rattle.builds.specs.Lists.{list_in, CopyAsks};

use crate::blocks::{block_of, cell_of, copy_steps, steps_of};
use crate::flags::flagged;
use frames::count::EXPRESSION_LIMIT;
use frames::tables::expression_at;
use starkinfo_codegen::order::JOB_LIMIT;
use starkinfo_codegen::out::ROWS;

// Every block; without the plain blocks that are skipped; without any that is. An enum and no closure: there are these three lists and no others, and each has its own definition.
#[derive(Clone, Copy)]
pub enum Which {
    First,
    I,
    Last,
}

const STANDS: u8 = 1;

// Notes the cells of the first n blocks.
fn fill_standing(blocks: &[u64; JOB_LIMIT], standing: &mut [u8; JOB_LIMIT], n: usize)
    requires { n ≤ 1024 }
    ensures { standing.new ≡ stand_to blocks.now n standing.old }
{
    for k in 0..n {
        let cell = cell_of(blocks[k]);
        standing[cell] = STANDS;
    }
}

// Is e in E: one of m expressions, with a flag, whose plain and primed blocks both stand?
#[tactic(auto, unfolding(crate::specs::Numbered::in_table))]
fn in_e(
    expressions: &[u64; EXPRESSION_LIMIT],
    standing: &[u8; JOB_LIMIT],
    m: usize,
    e: usize,
) -> bool
    requires { m ≤ expression_limit }
    ensures { result ≡ in_table expressions.now m standing.now e }
{
    if m <= e || !flagged(expression_at(expressions, e).flags) {
        return false;
    }
    let cell = ROWS * e;
    0 < standing[cell] && 0 < standing[cell + 1]
}

fn skips(which: Which, inside: bool, row: usize) -> bool
    ensures { result ≡ skips_in which inside row }
{
    match which {
        Which::First => false,
        Which::I => inside && row == 0,
        Which::Last => inside,
    }
}

// How many steps of block number k a list takes. A block is skipped by its own number, read as an expression, whatever it is the block of (document 01).
fn taken(
    blocks: &[u64; JOB_LIMIT],
    expressions: &[u64; EXPRESSION_LIMIT],
    standing: &[u8; JOB_LIMIT],
    m: usize,
    which: Which,
    k: usize,
) -> usize
    requires { TakenAsks m k }
    ensures { result ≡ taken_at (skips_at blocks.now expressions.now m standing.now which) blocks.now k }
{
    let block = block_of(blocks[k]);
    if skips(which, in_e(expressions, standing, m, k), block.row) {
        return 0;
    }
    block.steps
}

fn count_taken(
    blocks: &[u64; JOB_LIMIT],
    expressions: &[u64; EXPRESSION_LIMIT],
    standing: &[u8; JOB_LIMIT],
    n: usize,
    m: usize,
    which: Which,
) -> usize
    requires { BlocksAsk blocks.now n m }
    ensures { result ≡ taken_to (skips_at blocks.now expressions.now m standing.now which) blocks.now n }
{
    let mut steps: usize = 0;
    for k in 0..n {
        steps += taken(blocks, expressions, standing, m, which, k);
    }
    steps
}

fn copy_taken(
    list: &[u8],
    blocks: &[u64; JOB_LIMIT],
    expressions: &[u64; EXPRESSION_LIMIT],
    standing: &[u8; JOB_LIMIT],
    out: &mut [u8],
    n: usize,
    m: usize,
    which: Which,
)
    requires { CopyTakenAsks blocks.now expressions.now standing.now n m which (length list.now) (length out.old) }
    ensures { out.new ≡ write out.old 0 (steps_bytes (list_to (skips_at blocks.now expressions.now m standing.now which) blocks.now list.now n)) }
{
    let mut from: usize = 0;
    let mut to: usize = 0;
    for k in 0..n {
        let count = taken(blocks, expressions, standing, m, which, k);
        copy_steps(list, out, from, to, count);
        from += steps_of(blocks[k]);
        to += count;
    }
}

// How many steps a list of the first n blocks has, in a pool of m expressions.
pub fn list_size(
    blocks: &[u64; JOB_LIMIT],
    expressions: &[u64; EXPRESSION_LIMIT],
    n: usize,
    m: usize,
    which: Which,
) -> usize
    requires { BlocksAsk blocks.now n m }
    ensures { (l : List ℕ) → result ≡ length (list_in blocks.now expressions.now l n m which) }
{
    let mut standing = [0u8; JOB_LIMIT];
    fill_standing(blocks, &mut standing, n);
    count_taken(blocks, expressions, &standing, n, m, which)
}

// Writes that list at the front of `out`.
pub fn copy_list(
    list: &[u8],
    blocks: &[u64; JOB_LIMIT],
    expressions: &[u64; EXPRESSION_LIMIT],
    out: &mut [u8],
    n: usize,
    m: usize,
    which: Which,
)
    requires { CopyAsks blocks.now expressions.now list.now n m which (length out.old) }
    ensures { out.new ≡ write out.old 0 (steps_bytes (list_in blocks.now expressions.now list.now n m which)) }
{
    let mut standing = [0u8; JOB_LIMIT];
    fill_standing(blocks, &mut standing, n);
    copy_taken(list, blocks, expressions, &standing, out, n, m, which)
}
