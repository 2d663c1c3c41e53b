// What an auditor reads stands in specs/; a crate has at least one function.
#![tactic(auto)]

ghost use Rattle.std.specs.Prelude.{◌≡◌};

// How many refusals document 01 names.
pub fn refusals() -> usize
    ensures { result ≡ 17 }
{
    17
}
