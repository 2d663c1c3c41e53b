// Are a lent list, a modulus and the given values well formed? They are the caller's word, so all of them is looked at.
ghost use Rattle.std.specs.Prelude.{◌≡◌};
ghost use Rattle.evaluator_run.specs.Evaluation.{well_formed};

use evaluator_cells::given::good_values;
use lists::records::good_list;

const LEAST_MODULUS: u32 = 2;

pub fn is_well_formed(list: &[u8], modulus: u32, values: &[u64]) -> bool
    ensures { result ≡ well_formed values.now modulus list.now }
{
    if modulus < LEAST_MODULUS {
        return false;
    }
    if !good_list(list) {
        return false;
    }
    good_values(values)
}
