// An expression's flags, and the marks that a build leaves.
ghost use Rattle.std.specs.Prelude.{◌≡◌, ◌<◌, ◌≤◌};
ghost use Rattle.frames.specs.Order.{expression_limit};
ghost use Rattle.builds.specs.Raw.{bit_in, flagged_by, released_by};
ghost use Rattle.builds.specs.Marking.{release_one, release};

use frames::count::EXPRESSION_LIMIT;
use frames::tables::expression_at;
use starkinfo_codegen::order::JOB_LIMIT;
use starkinfo_codegen::out::ROWS;

const KEEP: u8 = 1;

const KEEP2NS: u8 = 2;

const IDQ: u8 = 4;

const MARKED: u8 = 1;

fn has(flags: u8, bit: u8) -> bool
    requires { 0 < bit }
    ensures { result ≡ bit_in flags bit }
{
    flags / bit % 2 == 1
}

// A block of such an expression may be skipped.
#[tactic(auto, unfolding(crate::specs::Raw::flagged_by))]
pub fn flagged(flags: u8) -> bool
    ensures { result ≡ flagged_by flags }
{
    has(flags, KEEP) || has(flags, KEEP2NS) || has(flags, IDQ)
}

// keep2ns does not protect from a mark.
#[tactic(auto, unfolding(crate::specs::Raw::released_by))]
fn released(flags: u8) -> bool
    ensures { result ≡ released_by flags }
{
    !has(flags, KEEP) && !has(flags, IDQ)
}

fn release_one(expressions: &[u64; EXPRESSION_LIMIT], marks: &mut [u8; JOB_LIMIT], e: usize)
    requires { e < expression_limit }
    ensures { marks.new ≡ release_one expressions.now e marks.old }
{
    if released(expression_at(expressions, e).flags) {
        let cell = ROWS * e;
        marks[cell] = MARKED;
        marks[cell + 1] = MARKED;
    }
}

// After a build each of the first m expressions with neither keep nor idQ is marked both ways.
pub fn mark_released(expressions: &[u64; EXPRESSION_LIMIT], marks: &mut [u8; JOB_LIMIT], m: usize)
    requires { m ≤ expression_limit }
    ensures { marks.new ≡ release expressions.now m marks.old }
{
    for e in 0..m {
        release_one(expressions, marks, e);
    }
}
