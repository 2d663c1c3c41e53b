// The dimension of an expression, with the columns' dimensions as they stand.
ghost use Rattle.std.specs.Prelude.{◌≡◌};
ghost use Rattle.pool.specs.Entries.{entries_in};
ghost use Rattle.map_records.specs.Tables.{DimAsked, DimGiven, BothAsked, BothGiven};

use exp_dims::dim::{UNKNOWN, get_exp_dim};
use frames::count::EXPRESSION_LIMIT;
use frames::tables::NODE_WORDS;

pub fn exp_dim(
    nodes: &[u64; NODE_WORDS],
    expressions: &[u64; EXPRESSION_LIMIT],
    table: &[u8],
    dims: &[u16],
    e: usize,
) -> u16
    requires { DimAsked nodes.now expressions.now (entries_in table.now) e }
    ensures { DimGiven nodes.now expressions.now (entries_in table.now) dims.now e result }
{
    let mut known = [UNKNOWN; EXPRESSION_LIMIT];
    get_exp_dim(nodes, expressions, table, dims, &mut known, e)
}

// The larger of two.
pub fn lookup_dim(
    nodes: &[u64; NODE_WORDS],
    expressions: &[u64; EXPRESSION_LIMIT],
    table: &[u8],
    dims: &[u16],
    f: usize,
    t: usize,
) -> u16
    requires { BothAsked nodes.now expressions.now (entries_in table.now) f t }
    ensures { BothGiven nodes.now expressions.now (entries_in table.now) dims.now f t result }
{
    let mut known = [UNKNOWN; EXPRESSION_LIMIT];
    let a = get_exp_dim(nodes, expressions, table, dims, &mut known, f);
    let b = get_exp_dim(nodes, expressions, table, dims, &mut known, t);
    a.max(b)
}
