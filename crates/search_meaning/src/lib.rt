// What the degree search means stands in specs/; a crate has at least one function.
#![tactic(auto)]

ghost use Rattle.std.specs.Prelude.{◌≡◌};

// The least degree limit that the search tries.
pub fn first_limit() -> u64
    ensures { result ≡ 2 }
{
    2
}
