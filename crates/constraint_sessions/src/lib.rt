// What the lists of the constraint polynomial and the contexts after them stand for is in specs/; a crate has at least one function.
#![tactic(auto)]

ghost use Rattle.std.specs.Prelude.{◌≡◌};

// How many lists there are: step3 and step42ns.
pub fn lists() -> usize
    ensures { result ≡ 2 }
{
    2
}
