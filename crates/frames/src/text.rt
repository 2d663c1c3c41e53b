// A text of lower-case hexadecimal, one frame a line, read whole.
ghost use Rattle.std.specs.Prelude.{◌≡◌, ◌<◌, length};
ghost use Rattle.frames.specs.Tables.{tables, Sized, Takes};
ghost use Rattle.frames.specs.Text.{line_frame, end_at, FillsText};

use crate::count::{Counts, EXPRESSION_LIMIT, NODE_LIMIT, REQUEST_LIMIT};
use crate::hex::{LONGEST_FRAME, unhex};
use crate::tables::NODE_WORDS;
use crate::take::take;
use kinds::refusal::{Refusal, Refused};

// Where the line that is at an index ends: at its line feed, or with the text.
pub fn line_end(text: &[u8], at: usize) -> usize
    requires { at < length text.now }
    ensures { result ≡ end_at text.now at }
{
    let line = &text[at..];
    at + line.iter().position(|&b| b == b'\n').unwrap_or(line.len())
}

// The frame of a line, after those that `c` counts. Where it is refused, no table has changed.
pub fn take_line(
    line: &[u8],
    c: Counts,
    nodes: &mut [u64; NODE_WORDS],
    literals: &mut [u64; NODE_LIMIT],
    expressions: &mut [u64; EXPRESSION_LIMIT],
    requests: &mut [u64; REQUEST_LIMIT],
) -> Result<Counts, Refused>
    ensures { Takes (tables nodes.old literals.old expressions.old requests.old) c (line_frame line.now) result (tables nodes.new literals.new expressions.new requests.new) }
{
    let mut bytes = [0u8; LONGEST_FRAME];
    let n = unhex(line, &mut bytes).ok_or(Refusal::Malformed)?;
    take(&bytes[..n], c, nodes, literals, expressions, requests)
}

// Reads into the tables. Where a line is refused, those before it stand in them, and none after it is looked at.
pub fn fill_text(
    text: &[u8],
    nodes: &mut [u64; NODE_WORDS],
    literals: &mut [u64; NODE_LIMIT],
    expressions: &mut [u64; EXPRESSION_LIMIT],
    requests: &mut [u64; REQUEST_LIMIT],
) -> Result<Counts, Refused>
    requires { Sized (tables nodes.old literals.old expressions.old requests.old) }
    ensures { FillsText text.now result (tables nodes.new literals.new expressions.new requests.new) }
{
    let mut c = Counts::default();
    let mut at: usize = 0;
    // No `for`: each line says how far the next one is.
    while at < text.len() {
        let end = line_end(text, at);
        c = take_line(&text[at..end], c, nodes, literals, expressions, requests)?;
        at = end + 1;
    }
    Ok(c)
}
