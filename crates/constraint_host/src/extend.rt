// The pool with the constraint.
ghost use Rattle.std.specs.Prelude.{◌≡◌};
ghost use Rattle.meaning.specs.Refusals.{done};
ghost use Rattle.constraint_host.specs.Numbered.{numbers_told, columns, PoolNumbered};

use constraint_frames::answer::Numbers;
use constraint_frames::entry::constrain_pool;
use constraint_pool::judge::Columns;
use kinds::refusal::answer_number;
use sets::SET_WORDS;

// c_exp's number, n_cm3, n_cm4, the first of qs, nCommitments after it, and how many bytes the frames have.
pub const NUMBERS: usize = 6;

fn tell_numbers(n: Numbers, numbers: &mut [usize; NUMBERS])
    ensures { numbers.new ≡ numbers_told (done n) numbers.old }
{
    numbers[0] = n.expression;
    numbers[1] = n.n_cm3;
    numbers[2] = n.n_cm4;
    numbers[3] = n.first_q;
    numbers[4] = n.commitments;
    numbers[5] = n.size;
}

// Adds the constraint polynomial of the identities to a pool, with the columns that a search chose: puts the frames of the pool with it at the front of `out`, and
// says its numbers.
pub fn enonkasse_constraint_pool(
    frames: &[u8],
    identities: &[u64],
    chosen: &[u64; SET_WORDS],
    vc: u16,
    n_cm1: usize,
    n_cm2: usize,
    commitments: usize,
    quotients: usize,
    out: &mut [u8],
    numbers: &mut [usize; NUMBERS],
) -> u8
    ensures { PoolNumbered frames.now identities.now chosen.now vc (columns n_cm1 n_cm2 commitments quotients) out.old out.new numbers.old numbers.new result }
{
    let c = Columns {
        commitments,
        n_cm1,
        n_cm2,
        quotients,
    };
    let constrained = constrain_pool(frames, identities, chosen, vc, c, out);
    if let Ok(n) = constrained {
        tell_numbers(n, numbers);
    }
    answer_number(&constrained)
}
