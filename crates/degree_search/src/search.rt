// The search from frames: read, admitted and searched.
ghost use Rattle.degree_search.specs.Searching.{PoolAsked, PoolGiven, SearchGiven};

use crate::admitted::search_admitted;
use crate::choose::Found;
use frames::count::{Counts, EXPRESSION_LIMIT, NODE_LIMIT, REQUEST_LIMIT};
use frames::read::fill;
use frames::tables::NODE_WORDS;
use kinds::refusal::Refused;
use pool::admit::admit;
use sets::SET_WORDS;

pub fn search_pool(
    nodes: &[u64; NODE_WORDS],
    expressions: &[u64; EXPRESSION_LIMIT],
    identities: &[u64],
    chosen: &mut [u64; SET_WORDS],
    n_bits: u64,
    n_bits_ext: u64,
    limit: u64,
    c: Counts,
) -> Result<Found, Refused>
    requires { PoolAsked c }
    ensures { PoolGiven nodes.now expressions.now identities.now chosen.old chosen.new n_bits n_bits_ext limit c result }
{
    admit(nodes, expressions, &[], c.nodes, c.expressions)?;
    search_admitted(
        nodes,
        expressions,
        identities,
        chosen,
        n_bits,
        n_bits_ext,
        limit,
        c.nodes,
        c.expressions,
    )
}

// Frames, each behind its length (2 bytes, the high one first); requests among them are read and not served. The members come back in `chosen`: eight words of bits
// and their number. On a refusal it has not changed.
pub fn search(
    frames: &[u8],
    identities: &[u64],
    chosen: &mut [u64; SET_WORDS],
    n_bits: u64,
    n_bits_ext: u64,
    limit: u64,
) -> Result<Found, Refused>
    ensures { SearchGiven frames.now identities.now chosen.old chosen.new n_bits n_bits_ext limit result }
{
    let mut nodes = [0u64; NODE_WORDS];
    let mut literals = [0u64; NODE_LIMIT];
    let mut expressions = [0u64; EXPRESSION_LIMIT];
    let mut requests = [0u64; REQUEST_LIMIT];
    let c = fill(
        frames,
        &mut nodes,
        &mut literals,
        &mut expressions,
        &mut requests,
    )?;
    search_pool(
        &nodes,
        &expressions,
        identities,
        chosen,
        n_bits,
        n_bits_ext,
        limit,
        c,
    )
}
