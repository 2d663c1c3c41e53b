// Standard input as a text of frames, fed to its end.
ghost use Rattle.std.specs.Prelude.{◌≤◌, length};
ghost use Rattle.frames.specs.Tables.{tables};
ghost use Rattle.console.specs.Reading.{ReadAsked, ReadGiven};

use feed::feed::{LINE_ROOM, Place, feed};
use frames::count::{EXPRESSION_LIMIT, NODE_LIMIT, REQUEST_LIMIT};
use frames::tables::NODE_WORDS;
use kinds::refusal::Refused;
use std::io::Read;

// More than a text has that is not refused before its end: 5,632 lines of at most 1,051 bytes.
const CHUNKS: u32 = 65536;

// So much is read before it is fed.
const CHUNK_SIZE: usize = 65536;

// Feeds standard input up to its end, to the first refusal, or to a line that is too long however it goes on.
pub fn read_all(
    input: &mut impl Read,
    line: &mut [u8; LINE_ROOM],
    nodes: &mut [u64; NODE_WORDS],
    literals: &mut [u64; NODE_LIMIT],
    expressions: &mut [u64; EXPRESSION_LIMIT],
    requests: &mut [u64; REQUEST_LIMIT],
) -> Result<Place, Refused>
    requires { ReadAsked line.old (tables nodes.old literals.old expressions.old requests.old) }
    ensures { ReadGiven result line.new (tables nodes.new literals.new expressions.new requests.new) }
{
    let mut chunk = [0u8; CHUNK_SIZE];
    let mut place = Place::start();
    for turn in 0..CHUNKS {
        let n = read_full(input, &mut chunk);
        place = feed(
            &chunk[..n],
            place,
            line,
            nodes,
            literals,
            expressions,
            requests,
        )?;
        if n < chunk.len() {
            return Ok(place);
        }
        if LINE_ROOM <= place.held {
            return Ok(place);
        }
    }
    Ok(place)
}

// Reads until the buffer is full or the input ends, and answers how many bytes were put at its start. A read that fails counts as the end.
fn read_full(input: &mut impl Read, buffer: &mut [u8]) -> usize
    ensures { result ≤ length buffer.new }
{
    let mut done: usize = 0;
    // No `for`: each read says how many bytes it put there.
    while done < buffer.len() {
        match input.read(&mut buffer[done..]) {
            Ok(0) => break,
            Ok(n) => done += n,
            Err(_) => break,
        }
    }
    done
}
