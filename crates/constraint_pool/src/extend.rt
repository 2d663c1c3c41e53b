// All of the constraint: the identities folded, then the members in ascending order, and the expression that has it.
ghost use Rattle.std.specs.Prelude.{◌≡◌};
ghost use Rattle.constraint_pool.specs.Nodes.{identities_nodes};
ghost use Rattle.constraint_pool.specs.Asked.{Appends};
ghost use Rattle.constraint_pool.specs.Whole.{IdentitiesAsk, MembersAsked, MembersGiven, ConstraintAsks, Adds};

use crate::copy::preceding;
use crate::join::{add_identity, add_member, first_identity};
use frames::count::{EXPRESSION_LIMIT, NODE_LIMIT};
use frames::rest::Expression;
use frames::tables::{NODE_WORDS, put_expression};
use pool::words::root;

// The constraint has no flags.
const NO_FLAGS: u8 = 0;

fn add_identities(
    nodes: &mut [u64; NODE_WORDS],
    literals: &mut [u64; NODE_LIMIT],
    others: &[u64],
    at: usize,
    vc: u16,
) -> usize
    requires { IdentitiesAsk others.now at }
    ensures { Appends nodes.old literals.old at (identities_nodes vc at others.now) nodes.new literals.new result }
{
    let mut next = at;
    for e in others {
        next = add_identity(nodes, literals, next, vc, *e as u16);
    }
    next
}

// Columns go to the members from `cm` on.
fn add_members(
    nodes: &mut [u64; NODE_WORDS],
    literals: &mut [u64; NODE_LIMIT],
    expressions: &[u64; EXPRESSION_LIMIT],
    members: &[u64],
    at: usize,
    vc: u16,
    cm: usize,
) -> usize
    requires { MembersAsked nodes.old literals.old expressions.now members.now at vc cm }
    ensures { MembersGiven nodes.old literals.old expressions.now members.now at vc cm nodes.new literals.new result }
{
    let mut next = at;
    for k in 0..members.len() {
        let body = root(expressions, members[k] as usize);
        next = add_member(nodes, literals, next, vc, body, (cm + k) as u16);
    }
    next
}

// The constraint after the first `n` nodes and `m` expressions. Answers how many nodes there are with it; its root is the last.
pub fn add_constraint(
    nodes: &mut [u64; NODE_WORDS],
    literals: &mut [u64; NODE_LIMIT],
    expressions: &mut [u64; EXPRESSION_LIMIT],
    identities: &[u64],
    members: &[u64],
    vc: u16,
    cm: usize,
    n: usize,
    m: usize,
) -> usize
    requires { ConstraintAsks nodes.old literals.old expressions.old identities.now members.now vc cm n m }
    ensures { Adds nodes.old literals.old expressions.old identities.now members.now vc cm n m nodes.new literals.new expressions.new result }
{
    let others = first_identity(nodes, literals, n, identities[0] as u16);
    let sums = add_identities(nodes, literals, &identities[1..], others, vc);
    let end = add_members(nodes, literals, expressions, members, sums, vc, cm);
    let own = Expression {
        root: preceding(end),
        flags: NO_FLAGS,
    };
    put_expression(expressions, m, own);
    end
}
