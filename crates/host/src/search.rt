// The degree search for a program in another language.
ghost use Rattle.host.specs.Searches.{SearchNumbered};

use degree_search::search::search;
use kinds::refusal::answer_number;
use sets::SET_WORDS;

// Searches for the columns that bring the degree of the identities down, in at most `limit` visits: the expressions chosen, a bit each, and q with the
// visits that it took.
pub fn enonkasse_search(
    frames: &[u8],
    identities: &[u64],
    n_bits: u64,
    n_bits_ext: u64,
    limit: u64,
    chosen: &mut [u64; SET_WORDS],
    found: &mut [u64; 2],
) -> u8
    ensures { SearchNumbered frames.now identities.now n_bits n_bits_ext limit chosen.old chosen.new found.old found.new result }
{
    let searched = search(frames, identities, chosen, n_bits, n_bits_ext, limit);
    if let Ok(best) = searched {
        found[0] = best.q;
        found[1] = best.visits;
    }
    answer_number(&searched)
}
