// What the lists that `fix` leaves compute stands in specs/; a crate has at least one function.
#![tactic(auto)]

ghost use Rattle.std.specs.Prelude.{◌≡◌};

// How many conditions are asked of a plan: its intermediates have cm numbers of their own, and no leaf reads one.
pub fn conditions() -> usize
    ensures { result ≡ 2 }
{
    2
}
