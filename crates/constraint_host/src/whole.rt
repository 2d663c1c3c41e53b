// `generate_constraint_polynomial` in one call.
ghost use Rattle.std.specs.Prelude.{◌≡◌};
ghost use Rattle.codegen.specs.Building.{lists};
ghost use Rattle.constraint_build.specs.Both.{lent};
ghost use Rattle.starkinfo_cp_prover.specs.Polynomial.{asked};
ghost use Rattle.constraint_host.specs.Whole.{before, sizes_set, ConstraintNumbered};

use constraint_build::answer::Sizes;
use constraint_choice::answer::{Asking, Before};
use kinds::refusal::answer_number;
use sets::SET_WORDS;
use starkinfo_cp_prover::entry::generate_constraint_polynomial;

// The steps of the six lists, and the bytes of the frames.
pub const TOTALS: usize = 7;

fn set_sizes(s: Sizes, bytes: usize, totals: &mut [usize; TOTALS])
    ensures { totals.new ≡ sizes_set s bytes totals.old }
{
    totals[0] = s.first;
    totals[1] = s.i;
    totals[2] = s.last;
    totals[3] = s.first_2ns;
    totals[4] = s.i_2ns;
    totals[5] = s.last_2ns;
    totals[6] = bytes;
}

// Searches, adds the constraint to the pool, and makes step3 in the first context and step42ns in the second: all of it or nothing. Says q and the visits, how many steps
// each of the six lists has, and how many bytes the frames of the pool with the constraint have.
pub fn enonkasse_constraint(
    frames: &[u8],
    identities: &[u64],
    vc: u16,
    n_bits: u64,
    n_bits_ext: u64,
    limit: u64,
    n_cm1: usize,
    n_cm2: usize,
    commitments: usize,
    context: &mut [u8],
    list: &mut [u8],
    first: &mut [u8],
    i: &mut [u8],
    last: &mut [u8],
    context_2ns: &mut [u8],
    list_2ns: &mut [u8],
    first_2ns: &mut [u8],
    i_2ns: &mut [u8],
    last_2ns: &mut [u8],
    out: &mut [u8],
    chosen: &mut [u64; SET_WORDS],
    found: &mut [u64; 2],
    totals: &mut [usize; TOTALS],
) -> u8
    ensures { ConstraintNumbered frames.now (asked identities.now vc n_bits n_bits_ext limit (before n_cm1 n_cm2 commitments)) (lent context.old list.old (lists first.old i.old last.old)) (lent context_2ns.old list_2ns.old (lists first_2ns.old i_2ns.old last_2ns.old)) out.old chosen.old found.old totals.old (lent context.new list.new (lists first.new i.new last.new)) (lent context_2ns.new list_2ns.new (lists first_2ns.new i_2ns.new last_2ns.new)) out.new chosen.new found.new totals.new result }
{
    let before = Before {
        commitments,
        n_cm1,
        n_cm2,
    };
    let a = Asking {
        vc,
        n_bits,
        n_bits_ext,
        limit,
        before,
    };
    let generated = generate_constraint_polynomial(
        frames,
        identities,
        a,
        context,
        list,
        first,
        i,
        last,
        context_2ns,
        list_2ns,
        first_2ns,
        i_2ns,
        last_2ns,
        out,
        chosen,
    );
    if let Ok(made) = generated {
        found[0] = made.q;
        found[1] = made.visits;
        set_sizes(made.sizes, made.bytes, totals);
    }
    answer_number(&generated)
}
