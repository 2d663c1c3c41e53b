// The comparison stands in specs/ and is proved by computation; a crate has at least one function.
#![tactic(auto)]

ghost use Rattle.std.specs.Prelude.{◌≡◌};

// The families of vectors.
pub fn families() -> usize
    ensures { result ≡ 11 }
{
    11
}
