// The number that a slice of frames, or a text of them, gets: 0 for a pool that is admitted, else its refusal's.
ghost use Rattle.pool.specs.Numbered.{Numbered, NumberedText, VerdictAsked, VerdictGiven};

use crate::admit::admit;
use frames::count::{Counts, EXPRESSION_LIMIT, NODE_LIMIT, REQUEST_LIMIT};
use frames::read::read;
use frames::tables::NODE_WORDS;
use frames::text::fill_text;
use kinds::refusal::{Refused, answer_number};

// The ranks of the pool that was read, or the first refusal, while reading or after it.
fn verdict_of(
    counts: Result<Counts, Refused>,
    nodes: &[u64; NODE_WORDS],
    expressions: &[u64; EXPRESSION_LIMIT],
) -> Result<[u64; EXPRESSION_LIMIT], Refused>
    requires { VerdictAsked nodes.now expressions.now counts }
    ensures { VerdictGiven nodes.now expressions.now counts result }
{
    let c = counts?;
    admit(nodes, expressions, &[], c.nodes, c.expressions)
}

pub fn number_of(s: &[u8]) -> u8
    ensures { Numbered s.now result }
{
    let mut nodes = [0u64; NODE_WORDS];
    let mut literals = [0u64; NODE_LIMIT];
    let mut expressions = [0u64; EXPRESSION_LIMIT];
    let mut requests = [0u64; REQUEST_LIMIT];
    let counts = read(
        s,
        &mut nodes,
        &mut literals,
        &mut expressions,
        &mut requests,
    );
    answer_number(&verdict_of(counts, &nodes, &expressions))
}

// That of a text of lower-case hexadecimal, one frame a line.
pub fn number_of_text(text: &[u8]) -> u8
    ensures { NumberedText text.now result }
{
    let mut nodes = [0u64; NODE_WORDS];
    let mut literals = [0u64; NODE_LIMIT];
    let mut expressions = [0u64; EXPRESSION_LIMIT];
    let mut requests = [0u64; REQUEST_LIMIT];
    let counts = fill_text(
        text,
        &mut nodes,
        &mut literals,
        &mut expressions,
        &mut requests,
    );
    answer_number(&verdict_of(counts, &nodes, &expressions))
}
