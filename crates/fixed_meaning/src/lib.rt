// What fixing means stands in specs/; a crate has at least one function.
#![tactic(auto)]

ghost use Rattle.std.specs.Prelude.{◌≡◌};

// How many lists of a segment fixing walks: first, i, last.
pub fn lists() -> usize
    ensures { result ≡ 3 }
{
    3
}
