// The choice among the candidates of all degree limits from 2 on.
ghost use Rattle.degree_search.specs.Choosing.{FinishGiven, ChooseAsked, ChooseGiven};

use crate::candidate::candidate;
use crate::keep::keep;
use degree_rule::reading::Reading;
use degree_rule::tally::Tally;
use frames::count::{EXPRESSION_LIMIT, NODE_LIMIT};
use frames::tables::NODE_WORDS;
use kinds::refusal::{Refusal, Refused};
use sets::SET_WORDS;

// The quotient's degree and the visits; the set stands beside them.
#[derive(Clone, Copy, Debug, PartialEq, Eq)]
pub struct Found {
    pub q: u64,
    pub visits: u64,
}

// The least degree limit.
const FIRST: u64 = 2;

// Of a degree q + 1: a q of -1 is refused, and so is no set at all.
fn finish(
    kept: Reading,
    best: &[u64; SET_WORDS],
    chosen: &mut [u64; SET_WORDS],
    visits: u64,
) -> Result<Found, Refused>
    ensures { FinishGiven kept best.now chosen.old chosen.new visits result }
{
    let Ok(Some(degree)) = kept else {
        return Err(Refusal::NoSet.into());
    };
    if degree == 0 {
        return Err(Refusal::NoQuotient.into());
    }
    *chosen = *best;
    Ok(Found {
        q: degree - 1,
        visits,
    })
}

// Each limit up to `last` in turn, over the identities in a pool of m expressions. Where it is refused, `chosen` has not changed.
pub fn choose(
    nodes: &[u64; NODE_WORDS],
    expressions: &[u64; EXPRESSION_LIMIT],
    full: &[u8; NODE_LIMIT],
    identities: &[u64],
    chosen: &mut [u64; SET_WORDS],
    limit: u64,
    last: u64,
    m: usize,
) -> Result<Found, Refused>
    requires { ChooseAsked nodes.now expressions.now full.now identities.now limit last m }
    ensures { ChooseGiven nodes.now expressions.now full.now identities.now chosen.old chosen.new limit last m result }
{
    let mut tally = Tally {
        cut: 0,
        visits: 0,
        limit,
        degree: FIRST,
    };
    let mut best = [0u64; SET_WORDS];
    let mut kept: Reading = Ok(None);
    for d in FIRST..=last {
        // No degree is cut yet; visits go on.
        tally = Tally {
            cut: 0,
            degree: d,
            ..tally
        };
        let mut set = [0u64; SET_WORDS];
        let here = candidate(
            nodes,
            expressions,
            full,
            identities,
            &mut set,
            &mut tally,
            m,
        )?;
        kept = keep(kept, &mut best, Ok(here), &set);
    }
    finish(kept, &best, chosen, tally.visits)
}
