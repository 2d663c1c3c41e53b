// The constraint polynomial, in pieces and in one call.
ghost use Rattle.codegen.specs.Building.{lists};
ghost use Rattle.constraint_build.specs.Both.{lent};
ghost use Rattle.constraint_host.specs.Numbered.{CloseNumbered, MarkNumbered, PoolNumbered, columns};
ghost use Rattle.constraint_host.specs.Whole.{ConstraintNumbered, before};
ghost use Rattle.starkinfo_cp_prover.specs.Polynomial.{asked};

use constraint_host::extend::NUMBERS;
use constraint_host::whole::TOTALS;
use sets::SET_WORDS;

// Marks these expressions of a pool that has so many at both rows: they stand in columns, and no list makes them any more.
#[unsafe(no_mangle)]
pub extern "C" fn enonkasse_mark(
    members: &[u64],
    expressions: usize,
    context: &mut [u8],
    list: &[u8],
) -> u8
    ensures { MarkNumbered members.now expressions context.old context.new list.now result }
{
    constraint_host::pieces::enonkasse_mark(members, expressions, context, list)
}

// Puts the closing product, q0 = the last destination times Zi, at the end of the last block of a context of a pool that has so many expressions.
#[unsafe(no_mangle)]
pub extern "C" fn enonkasse_close(expressions: usize, context: &mut [u8], list: &mut [u8]) -> u8
    ensures { CloseNumbered expressions context.old context.new list.old list.new result }
{
    constraint_host::pieces::enonkasse_close(expressions, context, list)
}

// Adds the constraint polynomial of the identities to a pool, with the columns that a search chose: puts the frames of the pool with it at the front of `out`, and
// says its numbers.
#[unsafe(no_mangle)]
pub extern "C" fn enonkasse_constraint_pool(
    frames: &[u8],
    identities: &[u64],
    chosen: &[u64; SET_WORDS],
    vc: u16,
    n_cm1: usize,
    n_cm2: usize,
    commitments: usize,
    quotients: usize,
    out: &mut [u8],
    numbers: &mut [usize; NUMBERS],
) -> u8
    ensures { PoolNumbered frames.now identities.now chosen.now vc (columns n_cm1 n_cm2 commitments quotients) out.old out.new numbers.old numbers.new result }
{
    constraint_host::extend::enonkasse_constraint_pool(
        frames,
        identities,
        chosen,
        vc,
        n_cm1,
        n_cm2,
        commitments,
        quotients,
        out,
        numbers,
    )
}

// Searches, adds the constraint to the pool, and makes step3 in the first context and step42ns in the second: all of it or nothing. Says q and the visits, how many steps
// each of the six lists has, and how many bytes the frames of the pool with the constraint have.
#[unsafe(no_mangle)]
pub extern "C" fn enonkasse_constraint(
    frames: &[u8],
    identities: &[u64],
    vc: u16,
    n_bits: u64,
    n_bits_ext: u64,
    limit: u64,
    n_cm1: usize,
    n_cm2: usize,
    commitments: usize,
    context: &mut [u8],
    list: &mut [u8],
    first: &mut [u8],
    i: &mut [u8],
    last: &mut [u8],
    context_2ns: &mut [u8],
    list_2ns: &mut [u8],
    first_2ns: &mut [u8],
    i_2ns: &mut [u8],
    last_2ns: &mut [u8],
    out: &mut [u8],
    chosen: &mut [u64; SET_WORDS],
    found: &mut [u64; 2],
    totals: &mut [usize; TOTALS],
) -> u8
    ensures { ConstraintNumbered frames.now (asked identities.now vc n_bits n_bits_ext limit (before n_cm1 n_cm2 commitments)) (lent context.old list.old (lists first.old i.old last.old)) (lent context_2ns.old list_2ns.old (lists first_2ns.old i_2ns.old last_2ns.old)) out.old chosen.old found.old totals.old (lent context.new list.new (lists first.new i.new last.new)) (lent context_2ns.new list_2ns.new (lists first_2ns.new i_2ns.new last_2ns.new)) out.new chosen.new found.new totals.new result }
{
    constraint_host::whole::enonkasse_constraint(
        frames,
        identities,
        vc,
        n_bits,
        n_bits_ext,
        limit,
        n_cm1,
        n_cm2,
        commitments,
        context,
        list,
        first,
        i,
        last,
        context_2ns,
        list_2ns,
        first_2ns,
        i_2ns,
        last_2ns,
        out,
        chosen,
        found,
        totals,
    )
}
