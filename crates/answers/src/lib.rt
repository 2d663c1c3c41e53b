// The ways to each number that an exported function answers stand in specs/; a crate has at least one function.
#![tactic(auto)]

ghost use Rattle.std.specs.Prelude.{◌≡◌};

// How many numbers there are: 0, and those of document 01's refusals.
pub fn answers() -> usize
    ensures { result ≡ 18 }
{
    18
}
