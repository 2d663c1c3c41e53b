// An expression and a request, and their frames: 02, root (2 bytes), flags; 03, expression (2 bytes), prime, muladd.
ghost use Rattle.std.specs.Prelude.{◌≡◌};
ghost use Rattle.frames.specs.Rest.{expression_of, expression_answer, request_of, request_answer};

use kinds::big_endian::u16_at;

const EXPRESSION_SIZE: usize = 4;

const REQUEST_SIZE: usize = 5;

// All three flags set.
const MOST_FLAGS: u8 = 7;

// Flags: bit 0 keep, 1 keep2ns, 2 idQ.
#[derive(Clone, Copy)]
pub struct Expression {
    pub root: u16,
    pub flags: u8,
}

#[derive(Clone, Copy)]
pub struct Request {
    pub expression: u16,
    pub prime: u8,
    pub muladd: u8,
}

// None of a frame that is malformed.
pub fn expression_frame(f: &[u8]) -> Option<Expression>
    ensures { expression_answer result ≡ expression_of f.now }
{
    if f.len() != EXPRESSION_SIZE || MOST_FLAGS < f[3] {
        return None;
    }
    Some(Expression {
        root: u16_at(f, 1),
        flags: f[3],
    })
}

// None of a frame that is malformed.
pub fn request_frame(f: &[u8]) -> Option<Request>
    ensures { request_answer result ≡ request_of f.now }
{
    if f.len() != REQUEST_SIZE || 1 < f[3] || 1 < f[4] {
        return None;
    }
    Some(Request {
        expression: u16_at(f, 1),
        prime: f[3],
        muladd: f[4],
    })
}
