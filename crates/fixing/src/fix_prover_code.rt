// Fixing a segment for the prover, in domain "n" or "2ns".
ghost use Rattle.std.specs.Prelude.{◌≡◌};
ghost use Rattle.lent_lists.specs.Verdicts.{fine};
ghost use Rattle.fixing.specs.ProverCode.{decided};
ghost use Rattle.fixing.specs.Answers.{ProverCodeIs};

use crate::rewrite::fix_lists;
use crate::rules::decide;
use crate::temporaries::{EXPRESSION_LIMIT, ID_LIMIT, LAST_COUNTER, give_lists};
use kinds::refusal::Refusal;

// `rules` has for each expression what it becomes, as kind * 2^32 + id * 2^16 + dim: cm with an intermediate's cm number, tmpExp with its temporary column in
// this domain and its dimension, any other kind for a new temporary. `cms` has for each cm number its record in this domain. Walks first, i, last, and gives the
// segment's counter after it; on a refusal (1, 3, 10 or 9) none of them has changed.
pub fn fix_prover_code(
    rules: &[u64; EXPRESSION_LIMIT],
    cms: &[u16],
    counter: usize,
    first: &mut [u8],
    i: &mut [u8],
    last: &mut [u8],
) -> Result<usize, Refusal>
    ensures { ProverCodeIs rules.now cms.now counter first.old i.old last.old first.new i.new last.new result }
{
    decide(cms, counter, first, i, last)?;
    fix_decided(rules, cms, counter, first, i, last)
}

// Nothing but room can be refused any more.
fn fix_decided(
    rules: &[u64; EXPRESSION_LIMIT],
    cms: &[u16],
    counter: usize,
    first: &mut [u8],
    i: &mut [u8],
    last: &mut [u8],
) -> Result<usize, Refusal>
    requires { decided cms.now counter first.old i.old last.old ≡ fine }
    ensures { ProverCodeIs rules.now cms.now counter first.old i.old last.old first.new i.new last.new result }
{
    let mut plain = [0u16; ID_LIMIT];
    let mut primed = [0u16; ID_LIMIT];
    let next = give_lists(rules, &mut plain, &mut primed, counter, first, i, last);
    if LAST_COUNTER < next {
        return Err(Refusal::Full);
    }
    fix_lists(rules, cms, &plain, &primed, first, i, last);
    Ok(next)
}
