// The literals of a pool modulo m, by the node that brings them.
ghost use Rattle.std.specs.Prelude.{◌≡◌, get_or};
ghost use Rattle.evaluator_cells.specs.Literals.{NumberAsks, FillAsks, NumbersAre};

use crate::arithmetic::residue;
use frames::count::NODE_LIMIT;
use frames::tables::NODE_WORDS;
use output::line::literal_of;

// 0 for a node that is not there.
pub fn number_at(numbers: &[u64; NODE_LIMIT], n: usize) -> u64
    requires { NumberAsks numbers.now }
    ensures { result ≡ get_or numbers.now n 0 }
{
    if n < NODE_LIMIT {
        return numbers[n];
    }
    0
}

// Of a pool of `count` nodes, into a table of zeros.
pub fn fill_numbers(
    nodes: &[u64; NODE_WORDS],
    literals: &[u64; NODE_LIMIT],
    count: usize,
    m: u64,
    numbers: &mut [u64; NODE_LIMIT],
)
    requires { FillAsks count m numbers.old }
    ensures { NumbersAre nodes.now literals.now m count numbers.new }
{
    for n in 0..count {
        numbers[n] = residue(literal_of(nodes, literals, n), m);
    }
}
