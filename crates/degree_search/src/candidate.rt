// The candidate of one degree limit: the identities folded as vc·c + e, read from no members. The fold is a loop: the visits of its add and mul nodes come first, then
// the identities in order.
ghost use Rattle.std.specs.Prelude.{◌≡◌};
ghost use Rattle.degree_rule.specs.Tallies.{Whole};
ghost use Rattle.degree_search.specs.Candidates.{Ticked, top_in, IdentityAsked, IdentityGiven, IdentitiesAsked, IdentitiesGiven, CandidateGiven};

use degree_rule::reading::{Reading, Stop, decode, degree, passed};
use degree_rule::rule::reference;
use degree_rule::tally::Tally;
use frames::count::{EXPRESSION_LIMIT, NODE_LIMIT};
use frames::tables::NODE_WORDS;
use sets::SET_WORDS;

// The largest degree is that returned or that cut.
fn top(largest: Option<u64>, cut: u64) -> Option<u64>
    ensures { result ≡ top_in largest cut }
{
    Some(largest?.max(cut))
}

// Two visits n times, where the limit allows them.
fn tick_all(tally: &mut Tally, n: usize) -> bool
    requires { Whole tally.old }
    ensures { Ticked tally.old n result tally.new }
{
    for k in 0..n {
        if !tally.enter() {
            return false;
        }
        if !tally.enter() {
            return false;
        }
    }
    true
}

// One identity more, after what was read so far.
fn identity(
    nodes: &[u64; NODE_WORDS],
    expressions: &[u64; EXPRESSION_LIMIT],
    full: &[u8; NODE_LIMIT],
    set: &mut [u64; SET_WORDS],
    tally: &mut Tally,
    m: usize,
    prior: Option<u64>,
    e: usize,
) -> Reading
    requires { IdentityAsked nodes.now expressions.now full.now set.old tally.old m prior e }
    ensures { IdentityGiven nodes.now expressions.now full.now set.old tally.old set.new tally.new m prior e result }
{
    let Some(a) = prior else {
        return passed(Ok(None), tally);
    };
    if !tally.enter() {
        return Err(Stop::OverLimit);
    }
    let d = tally.degree;
    let code = reference(nodes, expressions, full, set, tally, m, d, e);
    let Some(b) = degree(code) else {
        return decode(code);
    };
    Ok(Some(a.max(b)))
}

// The identities in order, from no members.
fn read_identities(
    nodes: &[u64; NODE_WORDS],
    expressions: &[u64; EXPRESSION_LIMIT],
    full: &[u8; NODE_LIMIT],
    identities: &[u64],
    set: &mut [u64; SET_WORDS],
    tally: &mut Tally,
    m: usize,
) -> Reading
    requires { IdentitiesAsked nodes.now expressions.now full.now identities.now set.old tally.old m }
    ensures { IdentitiesGiven nodes.now expressions.now full.now identities.now set.old tally.old set.new tally.new m result }
{
    let mut largest = Some(0);
    for k in 0..identities.len() {
        let e = identities[k] as usize;
        largest = identity(nodes, expressions, full, set, tally, m, largest, e)?;
    }
    Ok(largest)
}

// Of the degree limit that stands in the tally, from the empty set; there is an identity.
pub fn candidate(
    nodes: &[u64; NODE_WORDS],
    expressions: &[u64; EXPRESSION_LIMIT],
    full: &[u8; NODE_LIMIT],
    identities: &[u64],
    set: &mut [u64; SET_WORDS],
    tally: &mut Tally,
    m: usize,
) -> Reading
    requires { IdentitiesAsked nodes.now expressions.now full.now identities.now set.old tally.old m }
    ensures { CandidateGiven nodes.now expressions.now full.now identities.now set.old tally.old set.new tally.new m result }
{
    if !tick_all(tally, identities.len() - 1) {
        return Err(Stop::OverLimit);
    }
    let largest = read_identities(nodes, expressions, full, identities, set, tally, m)?;
    Ok(top(largest, tally.cut))
}
