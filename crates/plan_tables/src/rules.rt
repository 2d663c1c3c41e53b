// What fixing makes of each expression.
ghost use Rattle.std.specs.Prelude.{◌≡◌, cond};
ghost use Rattle.pool.specs.Entries.{entries_in};
ghost use Rattle.kinds.specs.KindBytes as kind;
ghost use Rattle.plans.specs.Plan.{im_cm};
ghost use Rattle.plan_tables.specs.Tables.{packed};
ghost use Rattle.plan_tables.specs.Cells.{ImsAsked, ImsGiven};
ghost use Rattle.plan_tables.specs.Rules.{ColumnRulesAsked, ColumnRulesGiven, RulesAsked, RulesGiven};

use crate::packed::pack;
use exp_dims::dim::{UNKNOWN, get_exp_dim};
use frames::count::EXPRESSION_LIMIT;
use frames::tables::NODE_WORDS;
use kinds::kind::Kind;
use plans::layout::{PAIR_SIZE, im_at, im_count, number_at};
use sections::map_section::RECORD_LIMIT;

// tmpExp with the dimension of the expression, for each column. From the last column to the first, so that an expression's first one stays.
fn fill_columns(
    nodes: &[u64; NODE_WORDS],
    expressions: &[u64; EXPRESSION_LIMIT],
    table: &[u8],
    cmdims: &[u16],
    columns: &[u16; RECORD_LIMIT],
    count: usize,
    rules: &mut [u64; EXPRESSION_LIMIT],
)
    requires { ColumnRulesAsked nodes.now expressions.now (entries_in table.now) columns.now count rules.old }
    ensures { ColumnRulesGiven nodes.now expressions.now (entries_in table.now) cmdims.now columns.now count rules.old rules.new }
{
    let mut known = [UNKNOWN; EXPRESSION_LIMIT];
    for k in (0..count).rev() {
        let e = columns[k] as usize;
        let d = get_exp_dim(nodes, expressions, table, cmdims, &mut known, e);
        rules[e] = pack(Kind::TMP_EXP, k, d);
    }
}

// The cm of each intermediate.
fn fill_intermediates(plan: &[u8], rules: &mut [u64; EXPRESSION_LIMIT])
    requires { ImsAsked plan.now rules.old }
    ensures { ImsGiven plan.now rules.old rules.new (λ i. packed kind.cm (im_cm plan.now i) 0) }
{
    let count = im_count(plan);
    let at = im_at(plan);
    for i in 0..count {
        let e = number_at(plan, at + PAIR_SIZE * i);
        let cm = number_at(plan, at + PAIR_SIZE * i + 1);
        rules[e] = pack(Kind::CM, cm, 0);
    }
}

// The columns that count in a domain: all in "n", none in "2ns".
fn columns_in(in_n: bool, count: usize) -> usize
    ensures { result ≡ cond in_n count 0 }
{
    if in_n { count } else { 0 }
}

// Into rules that are all 0, for the first `count` columns and the dimensions that `map` leaves.
pub fn fill_rules(
    in_n: bool,
    plan: &[u8],
    nodes: &[u64; NODE_WORDS],
    expressions: &[u64; EXPRESSION_LIMIT],
    table: &[u8],
    cmdims: &[u16],
    columns: &[u16; RECORD_LIMIT],
    count: usize,
    rules: &mut [u64; EXPRESSION_LIMIT],
)
    requires { RulesAsked nodes.now expressions.now (entries_in table.now) plan.now columns.now count rules.old }
    ensures { RulesGiven nodes.now expressions.now (entries_in table.now) plan.now cmdims.now columns.now count rules.old in_n rules.new }
{
    let used = columns_in(in_n, count);
    fill_columns(nodes, expressions, table, cmdims, columns, used, rules);
    fill_intermediates(plan, rules);
}
