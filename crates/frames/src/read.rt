// A slice of frames, each behind its length (2 bytes, the high one first), read whole.
ghost use Rattle.std.specs.Prelude.{◌≡◌, ◌<◌, length};
ghost use Rattle.frames.specs.Order.{counts_answer};
ghost use Rattle.frames.specs.Tables.{tables, Sized};
ghost use Rattle.frames.specs.Reading.{reading, counted, next_at, Fills, Reads};

use crate::count::{Counts, EXPRESSION_LIMIT, NODE_LIMIT, REQUEST_LIMIT, count};
use crate::tables::NODE_WORDS;
use crate::take::take;
use kinds::big_endian::u16_at;
use kinds::refusal::{Refusal, Refused};

// Where the frame behind the length at an index starts and ends; None where it is cut off.
fn next_frame(s: &[u8], at: usize) -> Option<(usize, usize)>
    requires { at < length s.now }
    ensures { result ≡ next_at s.now at }
{
    if s.len() - at < 2 {
        return None;
    }
    let from = at + 2;
    let n = u16_at(s, at) as usize;
    if s.len() - from < n {
        return None;
    }
    Some((from, from + n))
}

// How many of each, or the refusal.
pub fn scan(s: &[u8]) -> Result<Counts, Refused>
    ensures { counts_answer result ≡ counted (reading s.now) }
{
    let mut c = Counts::default();
    let mut at: usize = 0;
    // No `for`: each frame says how far the next one is.
    while at < s.len() {
        let (from, end) = next_frame(s, at).ok_or(Refusal::Malformed)?;
        c = count(&s[from..end], c)?;
        at = end;
    }
    Ok(c)
}

// Reads into the tables. Where a frame is refused, those before it stand in them.
pub fn fill(
    s: &[u8],
    nodes: &mut [u64; NODE_WORDS],
    literals: &mut [u64; NODE_LIMIT],
    expressions: &mut [u64; EXPRESSION_LIMIT],
    requests: &mut [u64; REQUEST_LIMIT],
) -> Result<Counts, Refused>
    requires { Sized (tables nodes.old literals.old expressions.old requests.old) }
    ensures { Fills s.now result (tables nodes.new literals.new expressions.new requests.new) }
{
    let mut c = Counts::default();
    let mut at: usize = 0;
    // No `for`: each frame says how far the next one is.
    while at < s.len() {
        let (from, end) = next_frame(s, at).ok_or(Refusal::Malformed)?;
        c = take(&s[from..end], c, nodes, literals, expressions, requests)?;
        at = end;
    }
    Ok(c)
}

// Reads into the tables, all or nothing: where a frame is refused, no table has changed.
pub fn read(
    s: &[u8],
    nodes: &mut [u64; NODE_WORDS],
    literals: &mut [u64; NODE_LIMIT],
    expressions: &mut [u64; EXPRESSION_LIMIT],
    requests: &mut [u64; REQUEST_LIMIT],
) -> Result<Counts, Refused>
    requires { Sized (tables nodes.old literals.old expressions.old requests.old) }
    ensures { Reads (tables nodes.old literals.old expressions.old requests.old) s.now result (tables nodes.new literals.new expressions.new requests.new) }
{
    scan(s)?;
    fill(s, nodes, literals, expressions, requests)
}
