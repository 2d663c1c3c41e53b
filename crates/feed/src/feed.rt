// A text fed in pieces. Whatever its size, no more of it is kept than the line that has not ended, and of that no more than shows it to be too long.
ghost use Rattle.std.specs.Prelude.{◌≡◌, [], ◌∷◌};
ghost use Rattle.frames.specs.Tables.{tables};
ghost use Rattle.frames.specs.Text.{line_feed};
ghost use Rattle.feed.specs.Feeding.{fresh, Keeps, FedAsked, FedGiven, FinishGiven};

use frames::count::{Counts, EXPRESSION_LIMIT, NODE_LIMIT, REQUEST_LIMIT};
use frames::hex::LONGEST_FRAME;
use frames::tables::NODE_WORDS;
use frames::text::take_line;
use kinds::refusal::Refused;

// One more than a line may have: a line that is kept whole in it may still be malformed, one that is not is malformed however it goes on.
pub const LINE_ROOM: usize = 2 * LONGEST_FRAME + 1;

// What was counted of the lines that ended, and how many bytes of the one that did not are kept.
#[derive(Clone, Copy)]
pub struct Place {
    pub counts: Counts,
    pub held: usize,
}

impl Place {
    pub fn start() -> Place
        ensures { result ≡ fresh }
    {
        Place {
            counts: Counts::default(),
            held: 0,
        }
    }
}

// A byte more of a line that has not ended.
fn keep(b: u8, p: Place, line: &mut [u8; LINE_ROOM]) -> Place
    ensures { Keeps b p line.old result line.new }
{
    if LINE_ROOM <= p.held {
        return p;
    }
    line[p.held] = b;
    Place {
        held: p.held + 1,
        ..p
    }
}

// A line feed.
fn end_line(
    p: Place,
    line: &[u8],
    nodes: &mut [u64; NODE_WORDS],
    literals: &mut [u64; NODE_LIMIT],
    expressions: &mut [u64; EXPRESSION_LIMIT],
    requests: &mut [u64; REQUEST_LIMIT],
) -> Result<Place, Refused>
    requires { FedAsked line.now p (tables nodes.old literals.old expressions.old requests.old) }
    ensures { FedGiven line.now p (tables nodes.old literals.old expressions.old requests.old) (line_feed ∷ []) result line.now (tables nodes.new literals.new expressions.new requests.new) }
{
    let counts = take_line(
        &line[..p.held],
        p.counts,
        nodes,
        literals,
        expressions,
        requests,
    )?;
    Ok(Place { counts, held: 0 })
}

fn feed_byte(
    b: u8,
    p: Place,
    line: &mut [u8; LINE_ROOM],
    nodes: &mut [u64; NODE_WORDS],
    literals: &mut [u64; NODE_LIMIT],
    expressions: &mut [u64; EXPRESSION_LIMIT],
    requests: &mut [u64; REQUEST_LIMIT],
) -> Result<Place, Refused>
    requires { FedAsked line.old p (tables nodes.old literals.old expressions.old requests.old) }
    ensures { FedGiven line.old p (tables nodes.old literals.old expressions.old requests.old) (b ∷ []) result line.new (tables nodes.new literals.new expressions.new requests.new) }
{
    if b == b'\n' {
        return end_line(p, line, nodes, literals, expressions, requests);
    }
    Ok(keep(b, p, line))
}

// More of the text. Every line that ends in it is taken, up to the first that is refused, whatever comes after it.
pub fn feed(
    more: &[u8],
    p: Place,
    line: &mut [u8; LINE_ROOM],
    nodes: &mut [u64; NODE_WORDS],
    literals: &mut [u64; NODE_LIMIT],
    expressions: &mut [u64; EXPRESSION_LIMIT],
    requests: &mut [u64; REQUEST_LIMIT],
) -> Result<Place, Refused>
    requires { FedAsked line.old p (tables nodes.old literals.old expressions.old requests.old) }
    ensures { FedGiven line.old p (tables nodes.old literals.old expressions.old requests.old) more.now result line.new (tables nodes.new literals.new expressions.new requests.new) }
{
    let mut at = p;
    for b in more {
        at = feed_byte(*b, at, line, nodes, literals, expressions, requests)?;
    }
    Ok(at)
}

// The end of the text, which ends the line that has not ended, if there is one.
pub fn finish(
    p: Place,
    line: &[u8],
    nodes: &mut [u64; NODE_WORDS],
    literals: &mut [u64; NODE_LIMIT],
    expressions: &mut [u64; EXPRESSION_LIMIT],
    requests: &mut [u64; REQUEST_LIMIT],
) -> Result<Counts, Refused>
    requires { FedAsked line.now p (tables nodes.old literals.old expressions.old requests.old) }
    ensures { FinishGiven line.now p (tables nodes.old literals.old expressions.old requests.old) result (tables nodes.new literals.new expressions.new requests.new) }
{
    if p.held == 0 {
        return Ok(p.counts);
    }
    take_line(
        &line[..p.held],
        p.counts,
        nodes,
        literals,
        expressions,
        requests,
    )
}
