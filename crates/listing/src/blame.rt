// The node to blame for a refusal.
ghost use Rattle.std.specs.Prelude.{◌≡◌};
ghost use Rattle.frames.specs.Order.{blame_answer};
ghost use Rattle.requests.specs.Runs.{outcome_says};
ghost use Rattle.listing.specs.Blamed.{blamed};

use kinds::refusal::Refused;
use requests::whole::Totals;

pub fn blame_of(r: Result<Totals, Refused>) -> Option<usize>
    ensures { blame_answer result ≡ blamed (outcome_says r) }
{
    match r {
        Ok(_) => None,
        Err(f) => f.node,
    }
}
