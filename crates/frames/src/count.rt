// Frames in order and within their limits: nodes, then expressions, then requests.
ghost use Rattle.std.specs.Prelude.{◌≡◌};
ghost use Rattle.meaning.specs.Refusals.{◌then◌};
ghost use Rattle.kinds.specs.Answers.{plain_answer_of};
ghost use Rattle.frames.specs.Frames.{frame_answer};
ghost use Rattle.frames.specs.Order.{place_node, place_expression, place_request, place, at_fault, blaming, count_of, blame_answer, counts_answer};

use crate::frame::{Frame, NODE_TYPE, frame_of};
use kinds::refusal::{Refusal, Refused};

pub const NODE_LIMIT: usize = 4096;

pub const EXPRESSION_LIMIT: usize = 512;

pub const REQUEST_LIMIT: usize = 1024;

#[derive(Clone, Copy, Default)]
pub struct Counts {
    pub nodes: usize,
    pub expressions: usize,
    pub requests: usize,
}

// The node to blame for a refusal of a frame after `c`.
fn at_fault(f: &[u8], c: Counts) -> Option<usize>
    ensures { blame_answer result ≡ at_fault c.nodes f.now }
{
    match f.first() {
        Some(&NODE_TYPE) => Some(c.nodes),
        _ => None,
    }
}

fn place_node(c: Counts) -> Result<Counts, Refusal>
    ensures { plain_answer_of result ≡ place_node c }
{
    if c.expressions != 0 || c.requests != 0 {
        return Err(Refusal::Malformed);
    }
    if NODE_LIMIT <= c.nodes {
        return Err(Refusal::Full);
    }
    Ok(Counts {
        nodes: c.nodes + 1,
        ..c
    })
}

fn place_expression(c: Counts) -> Result<Counts, Refusal>
    ensures { plain_answer_of result ≡ place_expression c }
{
    if c.requests != 0 {
        return Err(Refusal::Malformed);
    }
    if EXPRESSION_LIMIT <= c.expressions {
        return Err(Refusal::Full);
    }
    Ok(Counts {
        expressions: c.expressions + 1,
        ..c
    })
}

fn place_request(c: Counts) -> Result<Counts, Refusal>
    ensures { plain_answer_of result ≡ place_request c }
{
    if REQUEST_LIMIT <= c.requests {
        return Err(Refusal::Full);
    }
    Ok(Counts {
        requests: c.requests + 1,
        ..c
    })
}

fn place_frame(x: Option<Frame>, c: Counts) -> Result<Counts, Refusal>
    ensures { plain_answer_of result ≡ (frame_answer x then place c) }
{
    match x.ok_or(Refusal::Malformed)? {
        Frame::Node(_) => place_node(c),
        Frame::Expression(_) => place_expression(c),
        Frame::Request(_) => place_request(c),
    }
}

// What a frame, which was read as `x`, comes to after `c`.
pub fn placed(x: Option<Frame>, f: &[u8], c: Counts) -> Result<Counts, Refused>
    ensures { counts_answer result ≡ blaming (at_fault c.nodes f.now) (frame_answer x then place c) }
{
    place_frame(x, c).map_err(|refusal| Refused {
        refusal,
        node: at_fault(f, c),
    })
}

// A frame after those counted.
pub fn count(f: &[u8], c: Counts) -> Result<Counts, Refused>
    ensures { counts_answer result ≡ count_of c f.now }
{
    placed(frame_of(f), f, c)
}
