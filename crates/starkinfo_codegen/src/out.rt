// The first leaf of a tree, in the order of emission, that reads a row that is not there.
ghost use Rattle.starkinfo_codegen.specs.Ordering.{OutAsked, OutGiven, LeafAsked, LeafGiven, SeenGiven};

use crate::operation::operation_of;
use crate::words::{NODE_LIMIT, kind_of, next_of};
use frames::tables::NODE_WORDS;
use kinds::kind::Kind;

// There are two rows: that of a cell and the next one.
pub const ROWS: usize = 2;

// The leaf itself where it reads a row that is not there.
fn leaf_out(nodes: &[u64; NODE_WORDS], row: usize, i: u16) -> Option<u16>
    requires { LeafAsked row i }
    ensures { LeafGiven nodes.now row i result }
{
    let kind = kind_of(nodes, i);
    if !matches!(kind, Kind::CM..=Kind::Q) {
        return None;
    }
    if row + (next_of(nodes, i) as usize) < ROWS {
        return None;
    }
    Some(i)
}

// The node to blame, if there is one.
pub fn first_out(nodes: &[u64; NODE_WORDS], fused: bool, row: usize, i: u16) -> Option<u16>
    requires { OutAsked nodes.now fused row i }
    ensures { OutGiven nodes.now fused row i result }
{
    if NODE_LIMIT <= i {
        return None;
    }
    let Some(o) = operation_of(nodes, fused, i) else {
        return leaf_out(nodes, row, i);
    };
    if let Some(a) = first_out(nodes, fused, row, o.a) {
        return Some(a);
    }
    if let Some(b) = first_out(nodes, fused, row, o.b) {
        return Some(b);
    }
    first_out(nodes, fused, row, o.c)
}

// The same, of a tree in which such a leaf was perhaps seen: where none was, nothing is looked for.
pub fn first_seen(
    nodes: &[u64; NODE_WORDS],
    fused: bool,
    row: usize,
    i: u16,
    seen: bool,
) -> Option<u16>
    requires { OutAsked nodes.now fused row i }
    ensures { SeenGiven nodes.now fused row i seen result }
{
    if !seen {
        return None;
    }
    first_out(nodes, fused, row, i)
}
