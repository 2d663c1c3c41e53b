// What the constraint polynomial means stands in specs/; a crate has at least one function.
#![tactic(auto)]

ghost use Rattle.std.specs.Prelude.{◌≡◌};

// The nodes that each identity after the first, and each intermediate, adds around its own tree: vc, the product, the sum.
pub fn nodes_around() -> u64
    ensures { result ≡ 3 }
{
    3
}
