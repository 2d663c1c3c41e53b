// Fixing the verifier's query code, after it was fixed for the prover in "2ns".
ghost use Rattle.query_fixing.specs.QueryAnswers.{QueryCodeIs};

use crate::trees::Trees;
use kinds::refusal::Refusal;
use lent_lists::judge::judge_lists;
use lent_lists::records::good_lists;
use lent_lists::rewrite::rewrite_list;

// `trees` has for each cm number its record in "2ns", as kind * 2^32 + position * 2^16 + dimension, where the kind is tree1 to tree4 by its section; a cm
// number past it, or with another kind, is not there. Walks first, i, last; on a refusal (1, 3 or 10) none of them has changed.
pub fn fix_query_code(
    trees: &[u64],
    first: &mut [u8],
    i: &mut [u8],
    last: &mut [u8],
) -> Result<(), Refusal>
    ensures { QueryCodeIs trees.now first.old i.old last.old first.new i.new last.new result }
{
    if !good_lists(first, i, last) {
        return Err(Refusal::Malformed);
    }
    let trees = Trees { trees };
    judge_lists(&trees, first, i, last)?;
    rewrite_list(&trees, first);
    rewrite_list(&trees, i);
    rewrite_list(&trees, last);
    Ok(())
}
