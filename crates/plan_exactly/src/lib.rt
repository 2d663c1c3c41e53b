// When fixing, the query code's walk and dimensions by a plan refuse stands in specs/; a crate has at least one function.
#![tactic(auto)]

ghost use Rattle.std.specs.Prelude.{◌≡◌};

// How many refusals walks by a plan have beside the plan's own: 3, 9, 10 and 12.
pub fn refusals() -> usize
    ensures { result ≡ 4 }
{
    4
}
