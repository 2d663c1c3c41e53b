// The degree rule, by the kind of a node. The working set and the tally go by reference, and a reading comes back, since the recursion is up to 4,096 nodes and 512
// expressions deep; a set is copied only where a limit is split.
ghost use Rattle.std.specs.Prelude.{◌≡◌};
ghost use Rattle.kinds.specs.KindBytes.{number, challenge};
ghost use Rattle.kinds.specs.Range.{within};
ghost use Rattle.degree_rule.specs.Readings.{reading_of};
ghost use Rattle.degree_rule.specs.Visiting.{column_in, VisitAsked, VisitGiven, ProductAsked, ProductGiven, SplitsGiven, PairAsked, PairGiven, ReferenceAsked, ReferenceGiven};

use crate::reading::{
    BAD_KIND, NOTHING, OVER_LIMIT, Reading, better, decode, degree, encode, passed, settled,
};
use crate::tally::Tally;
use frames::count::{EXPRESSION_LIMIT, NODE_LIMIT};
use frames::tables::{NODE_WORDS, kind_at};
use full_degrees::degree::NO_DEGREE;
use kinds::kind::Kind;
use pool::words::{child, id, root};
use sets::{SET_WORDS, has, put};

// A product with a number, a public value or a challenge is the other factor.
fn is_constant(kind: u8) -> bool
    ensures { result ≡ within number challenge kind }
{
    match kind {
        Kind::NUMBER..=Kind::CHALLENGE => true,
        _ => false,
    }
}

fn column(m: u64) -> u64
    ensures { reading_of result ≡ column_in m }
{
    if m < 1 {
        return NOTHING;
    }
    1
}

// One visit of the tree at node i, with a set, at the limit m. Its leaves lead to others to no more than so many levels of expressions.
#[cycle(pair_product_reference_splits_visit)]
pub fn visit(
    nodes: &[u64; NODE_WORDS],
    expressions: &[u64; EXPRESSION_LIMIT],
    full: &[u8; NODE_LIMIT],
    set: &mut [u64; SET_WORDS],
    tally: &mut Tally,
    levels: usize,
    m: u64,
    i: usize,
) -> u64
    requires { VisitAsked nodes.now expressions.now full.now set.old tally.old levels m i }
    ensures { VisitGiven nodes.now expressions.now full.now set.old tally.old set.new tally.new levels m i (reading_of result) }
{
    if !tally.enter() {
        return OVER_LIMIT;
    }
    match kind_at(nodes, i) {
        Kind::MUL => product(nodes, expressions, full, set, tally, levels, m, i),
        Kind::EXP => reference(
            nodes,
            expressions,
            full,
            set,
            tally,
            levels,
            m,
            id(nodes, i),
        ),
        Kind::MULADD | Kind::Q => BAD_KIND,
        Kind::ADD..=Kind::SUB => pair(nodes, expressions, full, set, tally, levels, m, m, i),
        Kind::ADDC..=Kind::NEG => {
            let only = child(nodes, i, 0);
            visit(nodes, expressions, full, set, tally, levels, m, only)
        }
        Kind::NUMBER..=Kind::CHALLENGE => 0,
        Kind::EVAL..=Kind::X_DIV_X_SUB_WXI => BAD_KIND,
        _ => column(m),
    }
}

#[cycle(pair_product_reference_splits_visit)]
fn product(
    nodes: &[u64; NODE_WORDS],
    expressions: &[u64; EXPRESSION_LIMIT],
    full: &[u8; NODE_LIMIT],
    set: &mut [u64; SET_WORDS],
    tally: &mut Tally,
    levels: usize,
    m: u64,
    i: usize,
) -> u64
    requires { ProductAsked nodes.now expressions.now full.now set.old tally.old levels m i }
    ensures { ProductGiven nodes.now expressions.now full.now set.old tally.old set.new tally.new levels m i (reading_of result) }
{
    let left = child(nodes, i, 0);
    let right = child(nodes, i, 1);
    if is_constant(kind_at(nodes, left)) {
        return visit(nodes, expressions, full, set, tally, levels, m, right);
    }
    if is_constant(kind_at(nodes, right)) {
        return visit(nodes, expressions, full, set, tally, levels, m, left);
    }
    if full[i] == NO_DEGREE {
        return BAD_KIND;
    }
    let high = full[i] as u64;
    if high <= m {
        return high;
    }
    splits(nodes, expressions, full, set, tally, levels, m, i)
}

// Every way to share the limit m between both factors: the first smallest set, at once where it adds no member.
#[cycle(pair_product_reference_splits_visit)]
fn splits(
    nodes: &[u64; NODE_WORDS],
    expressions: &[u64; EXPRESSION_LIMIT],
    full: &[u8; NODE_LIMIT],
    set: &mut [u64; SET_WORDS],
    tally: &mut Tally,
    levels: usize,
    m: u64,
    i: usize,
) -> u64
    requires { ProductAsked nodes.now expressions.now full.now set.old tally.old levels m i }
    ensures { SplitsGiven nodes.now expressions.now full.now set.old tally.old set.new tally.new levels m i (reading_of result) }
{
    let before = *set;
    let mut best = *set;
    let mut kept: Reading = Ok(None);
    for l in 0..=m {
        *set = before;
        let both = pair(nodes, expressions, full, set, tally, levels, l, m - l, i);
        let Ok(here) = decode(both) else {
            return both;
        };
        kept = better(kept, &mut best, Ok(here), set);
        if settled(kept, &best, &before) {
            *set = best;
            return encode(kept);
        }
    }
    *set = best;
    encode(kept)
}

// Both children one after the other, at the limits l and r. The degree is the sum of both in a product, else the larger.
#[cycle(pair_product_reference_splits_visit)]
fn pair(
    nodes: &[u64; NODE_WORDS],
    expressions: &[u64; EXPRESSION_LIMIT],
    full: &[u8; NODE_LIMIT],
    set: &mut [u64; SET_WORDS],
    tally: &mut Tally,
    levels: usize,
    l: u64,
    r: u64,
    i: usize,
) -> u64
    requires { PairAsked nodes.now expressions.now full.now set.old tally.old levels l r i }
    ensures { PairGiven nodes.now expressions.now full.now set.old tally.old set.new tally.new levels l r i (reading_of result) }
{
    let left = child(nodes, i, 0);
    let first = visit(nodes, expressions, full, set, tally, levels, l, left);
    let Some(a) = degree(first) else {
        return encode(passed(decode(first), tally));
    };
    let right = child(nodes, i, 1);
    let second = visit(nodes, expressions, full, set, tally, levels, r, right);
    let Some(b) = degree(second) else {
        return second;
    };
    if kind_at(nodes, i) == Kind::MUL {
        return a + b;
    }
    a.max(b)
}

// An expression at a leaf: a member is a column; else its body is read with the degree limit d, and where that is too large it becomes a member.
#[cycle(pair_product_reference_splits_visit)]
pub fn reference(
    nodes: &[u64; NODE_WORDS],
    expressions: &[u64; EXPRESSION_LIMIT],
    full: &[u8; NODE_LIMIT],
    set: &mut [u64; SET_WORDS],
    tally: &mut Tally,
    levels: usize,
    m: u64,
    e: usize,
) -> u64
    requires { ReferenceAsked nodes.now expressions.now full.now set.old tally.old levels m e }
    ensures { ReferenceGiven nodes.now expressions.now full.now set.old tally.old set.new tally.new levels m e (reading_of result) }
{
    if m < 1 {
        return NOTHING;
    }
    if has(set, e) {
        return 1;
    }
    let d = tally.degree;
    let body = root(expressions, e);
    let read = visit(nodes, expressions, full, set, tally, levels - 1, d, body);
    let Some(high) = degree(read) else {
        return read;
    };
    if high <= m {
        return read;
    }
    put(set, e);
    tally.cut_at(high);
    1
}
