// The search over an admitted pool: 17, 16 and the identities' numbers (3) before any visit.
ghost use Rattle.std.specs.Prelude.{◌≡◌, ◌+◌, ◌≤◌, ◌^◌};
ghost use Rattle.search_meaning.specs.Search.{bits_ok, all_below};
ghost use Rattle.degree_search.specs.Searching.{AdmittedAsked, AdmittedGiven};

use crate::choose::{Found, choose};
use frames::count::{EXPRESSION_LIMIT, NODE_LIMIT};
use frames::tables::NODE_WORDS;
use full_degrees::degree::UNKNOWN;
use full_degrees::table::fill;
use kinds::refusal::{Refusal, Refused};
use sets::SET_WORDS;

// nBits is at most this, and nBitsExt at most so many more.
const BITS_LIMIT: u64 = 24;

const MORE_LIMIT: u64 = 4;

fn bits_ok(n_bits: u64, n_bits_ext: u64) -> bool
    ensures { result ≡ bits_ok n_bits n_bits_ext }
{
    n_bits <= BITS_LIMIT && n_bits <= n_bits_ext && n_bits_ext - n_bits <= MORE_LIMIT
}

// The last degree limit.
fn last_limit(more: u64) -> u64
    requires { more ≤ 4 }
    ensures { result ≡ 2 ^ more + 1 }
{
    (1 << more) + 1
}

pub fn all_below(identities: &[u64], m: usize) -> bool
    ensures { result ≡ all_below m identities.now }
{
    identities.iter().all(|e| (*e as usize) < m)
}

// Of n nodes and m expressions. Where it is refused, `chosen` has not changed.
pub fn search_admitted(
    nodes: &[u64; NODE_WORDS],
    expressions: &[u64; EXPRESSION_LIMIT],
    identities: &[u64],
    chosen: &mut [u64; SET_WORDS],
    n_bits: u64,
    n_bits_ext: u64,
    limit: u64,
    n: usize,
    m: usize,
) -> Result<Found, Refused>
    requires { AdmittedAsked nodes.now expressions.now n m }
    ensures { AdmittedGiven nodes.now expressions.now identities.now chosen.old chosen.new n_bits n_bits_ext limit n m result }
{
    if identities.len() == 0 {
        return Err(Refusal::NoIdentity.into());
    }
    if !bits_ok(n_bits, n_bits_ext) {
        return Err(Refusal::Bits.into());
    }
    if !all_below(identities, m) {
        return Err(Refusal::NotThere.into());
    }
    let mut full = [UNKNOWN; NODE_LIMIT];
    fill(nodes, expressions, &mut full, n, m);
    let last = last_limit(n_bits_ext - n_bits);
    choose(
        nodes,
        expressions,
        &full,
        identities,
        chosen,
        limit,
        last,
        m,
    )
}
