// The text lines that the program prints, each put at the front of a lent line.
ghost use Rattle.std.specs.Prelude.{◌≡◌, [], ◌∷◌, ◌+◌, ◌*◌, ◌≤◌, ◌<◌};
ghost use Rattle.kinds.specs.Write.{write};
ghost use Rattle.kinds.specs.BigEndian.{u16_bytes};
ghost use Rattle.frames.specs.Hexed.{hex_digit, hex_line};
ghost use Rattle.output.specs.Output.{u32_bytes, u64_bytes, lit_out, counter_line, refusal_line};
ghost use Rattle.output.specs.Records.{line_size, lit_of, literal_in, cell_bytes, source_bytes, sources_bytes, record_line, Puts, PutsLine};

use frames::count::NODE_LIMIT;
use frames::tables::{NODE_WORDS, kind_at, sign_at};
use kinds::kind::Kind;
use kinds::literal::Literal;
use kinds::reference::Reference;
use kinds::step::Step;

// Two digits for each byte.
const BYTE: usize = 2;

// The places of a cell's parts after its kind.
const ID: usize = BYTE;

const PRIME: usize = 3 * BYTE;

const CELL: usize = 4 * BYTE;

const LITERAL: usize = 9 * BYTE;

const SOURCES: usize = 3;

// A step byte, a destination, a source count, three numbers and the line feed.
pub const LINE_SIZE: usize = BYTE + CELL + BYTE + SOURCES * (CELL + LITERAL) + 1;

const COUNTER_MARK: u8 = 0xfe;

const REFUSAL_MARK: u8 = 0xff;

fn digit(v: u8) -> u8
    requires { v < 16 }
    ensures { result ≡ hex_digit v }
{
    if v < 10 { b'0' + v } else { b'a' + (v - 10) }
}

fn put_byte(out: &mut [u8; LINE_SIZE], at: usize, b: u8)
    requires { at + 2 ≤ line_size }
    ensures { out.new ≡ write out.old at (hex_line (b ∷ [])) }
{
    out[at] = digit(b / 16);
    out[at + 1] = digit(b % 16);
}

fn put_u16(out: &mut [u8; LINE_SIZE], at: usize, x: u16)
    requires { at + 4 ≤ line_size }
    ensures { out.new ≡ write out.old at (hex_line (u16_bytes x)) }
{
    put_byte(out, at, (x / 256) as u8);
    put_byte(out, at + BYTE, (x % 256) as u8);
}

fn put_u32(out: &mut [u8; LINE_SIZE], at: usize, x: u32)
    requires { at + 8 ≤ line_size }
    ensures { out.new ≡ write out.old at (hex_line (u32_bytes x)) }
{
    put_u16(out, at, (x / 0x1_0000) as u16);
    put_u16(out, at + 2 * BYTE, (x % 0x1_0000) as u16);
}

fn put_u64(out: &mut [u8; LINE_SIZE], at: usize, x: u64)
    requires { at + 16 ≤ line_size }
    ensures { out.new ≡ write out.old at (hex_line (u64_bytes x)) }
{
    put_u32(out, at, (x / 0x1_0000_0000) as u32);
    put_u32(out, at + 4 * BYTE, (x % 0x1_0000_0000) as u32);
}

// Kind, id, prime.
fn put_cell(out: &mut [u8; LINE_SIZE], at: usize, r: Reference)
    requires { at + 8 ≤ line_size }
    ensures { out.new ≡ write out.old at (hex_line (cell_bytes r)) }
{
    put_byte(out, at, r.kind);
    put_u16(out, at + ID, r.id);
    put_byte(out, at + PRIME, r.prime);
}

fn put_literal(out: &mut [u8; LINE_SIZE], at: usize, l: Literal)
    requires { at + 18 ≤ line_size }
    ensures { out.new ≡ write out.old at (hex_line (lit_out (lit_of l))) }
{
    // 01 is minus.
    put_byte(out, at, u8::from(l.negative));
    put_u64(out, at + BYTE, l.magnitude);
}

// What the node of a number reference brings: neg brings 0.
pub fn literal_of(nodes: &[u64; NODE_WORDS], literals: &[u64; NODE_LIMIT], n: usize) -> Literal
    ensures { lit_of result ≡ literal_in nodes.now literals.now n }
{
    if NODE_LIMIT <= n {
        return Literal {
            negative: false,
            magnitude: 0,
        };
    }
    if Kind::carries_literal(kind_at(nodes, n)) {
        return Literal {
            negative: sign_at(nodes, n) == 1,
            magnitude: literals[n],
        };
    }
    Literal {
        negative: false,
        magnitude: 0,
    }
}

// Answers where it ends.
fn put_source(
    nodes: &[u64; NODE_WORDS],
    literals: &[u64; NODE_LIMIT],
    out: &mut [u8; LINE_SIZE],
    at: usize,
    r: Reference,
) -> usize
    requires { at + 26 ≤ line_size }
    ensures { Puts out.old at (source_bytes nodes.now literals.now r) out.new result }
{
    put_cell(out, at, r);
    if r.kind == Kind::NUMBER {
        put_literal(
            out,
            at + CELL,
            literal_of(nodes, literals, r.extra as usize),
        );
        return at + CELL + LITERAL;
    }
    at + CELL
}

fn put_sources(
    nodes: &[u64; NODE_WORDS],
    literals: &[u64; NODE_LIMIT],
    out: &mut [u8; LINE_SIZE],
    at: usize,
    s: Step,
) -> usize
    requires { at + 78 ≤ line_size }
    ensures { Puts out.old at (sources_bytes nodes.now literals.now s) out.new result }
{
    if s.count < 1 {
        return at;
    }
    let one = put_source(nodes, literals, out, at, s.s0);
    if s.count < 2 {
        return one;
    }
    let two = put_source(nodes, literals, out, one, s.s1);
    if s.count < 3 {
        return two;
    }
    put_source(nodes, literals, out, two, s.s2)
}

// The line of a step, with the literals of its numbers from the tables. Answers its length.
pub fn step_line(
    nodes: &[u64; NODE_WORDS],
    literals: &[u64; NODE_LIMIT],
    s: Step,
    out: &mut [u8; LINE_SIZE],
) -> usize
    ensures { PutsLine out.old (record_line nodes.now literals.now s) out.new result }
{
    put_byte(out, 0, s.op);
    put_cell(out, BYTE, s.dest);
    put_byte(out, BYTE + CELL, s.count);
    let end = put_sources(nodes, literals, out, 2 * BYTE + CELL, s);
    out[end] = b'\n';
    end + 1
}

// The last line: the temporary counter.
pub fn counter_line(counter: u16, out: &mut [u8; LINE_SIZE]) -> usize
    ensures { PutsLine out.old (counter_line counter) out.new result }
{
    put_byte(out, 0, COUNTER_MARK);
    put_u16(out, BYTE, counter);
    out[3 * BYTE] = b'\n';
    3 * BYTE + 1
}

// The only line of a refusal.
pub fn refusal_line(number: u8, out: &mut [u8; LINE_SIZE]) -> usize
    ensures { PutsLine out.old (refusal_line number) out.new result }
{
    put_byte(out, 0, REFUSAL_MARK);
    put_byte(out, BYTE, number);
    out[2 * BYTE] = b'\n';
    2 * BYTE + 1
}
