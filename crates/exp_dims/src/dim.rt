// `get_exp_dim`: the largest dimension among the leaves of an expression, through the expressions that they lead to.
ghost use Rattle.std.specs.Prelude.{◌≡◌};
ghost use Rattle.pool.specs.Entries.{entries_in};
ghost use Rattle.exp_dims.specs.Known.{Kept, TreeAsked, TreeGiven, ExpAsked, ExpGiven};

use crate::leaf::{BASE, leaf_dim};
use frames::count::EXPRESSION_LIMIT;
use frames::tables::{NODE_WORDS, count_at};
use pool::cycle::lead;
use pool::words::{child, root};

// An expression whose dimension is not known. One that is as large as that is computed each time.
pub const UNKNOWN: u8 = 255;

fn kept(d: u16) -> u8
    ensures { Kept d result }
{
    if d < UNKNOWN as u16 {
        return d as u8;
    }
    UNKNOWN
}

// Of the tree at node i. `known` holds the dimensions of expressions, where they are known; an expression leads to others to no more than so many levels.
fn tree_dim(
    nodes: &[u64; NODE_WORDS],
    expressions: &[u64; EXPRESSION_LIMIT],
    table: &[u8],
    dims: &[u16],
    known: &mut [u8; EXPRESSION_LIMIT],
    levels: usize,
    i: usize,
) -> u16
    requires { TreeAsked nodes.now expressions.now (entries_in table.now) dims.now known.old levels i }
    ensures { TreeGiven nodes.now expressions.now (entries_in table.now) dims.now known.old known.new levels i result }
{
    let count = count_at(nodes, i);
    if count == 0 {
        let Some(e) = lead(nodes, table, i) else {
            return leaf_dim(nodes, dims, i);
        };
        let seen = known[e];
        if seen != UNKNOWN {
            return seen as u16;
        }
        let top = root(expressions, e);
        let d = tree_dim(nodes, expressions, table, dims, known, levels - 1, top);
        known[e] = kept(d);
        return d;
    }
    let c0 = child(nodes, i, 0);
    let a = tree_dim(nodes, expressions, table, dims, known, levels, c0);
    let first = BASE.max(a);
    if count == 1 {
        return first;
    }
    let c1 = child(nodes, i, 1);
    let b = tree_dim(nodes, expressions, table, dims, known, levels, c1);
    let second = first.max(b);
    if count == 2 {
        return second;
    }
    let c2 = child(nodes, i, 2);
    let c = tree_dim(nodes, expressions, table, dims, known, levels, c2);
    second.max(c)
}

// What is known stays true as long as the columns' dimensions stay what they are.
pub fn get_exp_dim(
    nodes: &[u64; NODE_WORDS],
    expressions: &[u64; EXPRESSION_LIMIT],
    table: &[u8],
    dims: &[u16],
    known: &mut [u8; EXPRESSION_LIMIT],
    e: usize,
) -> u16
    requires { ExpAsked nodes.now expressions.now (entries_in table.now) dims.now known.old e }
    ensures { ExpGiven nodes.now expressions.now (entries_in table.now) dims.now known.old known.new e result }
{
    tree_dim(
        nodes,
        expressions,
        table,
        dims,
        known,
        EXPRESSION_LIMIT,
        root(expressions, e),
    )
}
