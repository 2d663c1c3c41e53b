// A frame taken into the tables.
ghost use Rattle.std.specs.Prelude.{◌≡◌};
ghost use Rattle.frames.specs.Frames.{frame_answer};
ghost use Rattle.frames.specs.Tables.{tables, Room, put_all, Takes};

use crate::count::{Counts, EXPRESSION_LIMIT, NODE_LIMIT, REQUEST_LIMIT, placed};
use crate::frame::{Frame, frame_of};
use crate::tables::{NODE_WORDS, put_expression, put_node, put_request};
use kinds::refusal::Refused;

// What a frame brings, stored after those that `c` counts.
fn store(
    x: Option<Frame>,
    c: Counts,
    nodes: &mut [u64; NODE_WORDS],
    literals: &mut [u64; NODE_LIMIT],
    expressions: &mut [u64; EXPRESSION_LIMIT],
    requests: &mut [u64; REQUEST_LIMIT],
)
    requires { Room c (frame_answer x) }
    ensures { tables nodes.new literals.new expressions.new requests.new ≡ put_all (tables nodes.old literals.old expressions.old requests.old) c (frame_answer x) }
{
    match x {
        None => {}
        Some(Frame::Node(n)) => put_node(nodes, literals, c.nodes, n),
        Some(Frame::Expression(e)) => put_expression(expressions, c.expressions, e),
        Some(Frame::Request(q)) => put_request(requests, c.requests, q),
    }
}

// A frame after those that `c` counts. Where it is refused, no table has changed.
pub fn take(
    f: &[u8],
    c: Counts,
    nodes: &mut [u64; NODE_WORDS],
    literals: &mut [u64; NODE_LIMIT],
    expressions: &mut [u64; EXPRESSION_LIMIT],
    requests: &mut [u64; REQUEST_LIMIT],
) -> Result<Counts, Refused>
    ensures { Takes (tables nodes.old literals.old expressions.old requests.old) c f.now result (tables nodes.new literals.new expressions.new requests.new) }
{
    let x = frame_of(f);
    let d = placed(x, f, c)?;
    store(x, c, nodes, literals, expressions, requests);
    Ok(d)
}
