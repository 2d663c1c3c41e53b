// The end of a text that was fed in pieces: its pool admitted, its requests served, its first list built.
ghost use Rattle.frames.specs.Tables.{tables};
ghost use Rattle.feed.specs.Feeding.{FedAsked};
ghost use Rattle.transcript.specs.Concluding.{ConcludeGiven};

use feed::feed::{Place, finish};
use frames::count::{EXPRESSION_LIMIT, NODE_LIMIT, REQUEST_LIMIT};
use frames::tables::NODE_WORDS;
use kinds::refusal::Refused;
use requests::whole::{Totals, whole_run};

// Where the text is refused, the list has not changed.
pub fn conclude(
    p: Place,
    line: &[u8],
    nodes: &mut [u64; NODE_WORDS],
    literals: &mut [u64; NODE_LIMIT],
    expressions: &mut [u64; EXPRESSION_LIMIT],
    requests: &mut [u64; REQUEST_LIMIT],
    list: &mut [u8],
) -> Result<Totals, Refused>
    requires { FedAsked line.now p (tables nodes.old literals.old expressions.old requests.old) }
    ensures { ConcludeGiven line.now p (tables nodes.old literals.old expressions.old requests.old) list.old list.new result (tables nodes.new literals.new expressions.new requests.new) }
{
    let c = finish(p, line, nodes, literals, expressions, requests)?;
    whole_run(nodes, expressions, requests, list, c)
}
