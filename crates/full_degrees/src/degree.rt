// Full degrees as bytes, and what operations make of them. A degree that is not there is a byte too, since the table has one for each of 4,096 nodes and stands on the
// stack: an Option would take twice as much.
ghost use Rattle.std.specs.Prelude.{◌≡◌};
ghost use Rattle.full_degrees.specs.Coded.{times_code, leaf_code};

use kinds::kind::Kind;

// No degree limit is above 17, so this one and all above it are the same to the search.
pub const CAP: u8 = 18;

// A kind that has no degree is met.
pub const NO_DEGREE: u8 = 255;

// Not computed yet.
pub const UNKNOWN: u8 = 254;

// Of a product, from those of its factors.
pub fn times(a: u8, b: u8) -> u8
    ensures { result ≡ times_code a b }
{
    if CAP < a.max(b) {
        return NO_DEGREE;
    }
    CAP.min(a + b)
}

// Of a leaf that names no expression.
pub fn leaf_degree(kind: u8) -> u8
    ensures { result ≡ leaf_code kind }
{
    match kind {
        Kind::Q => NO_DEGREE,
        Kind::NUMBER..=Kind::EVAL => 0,
        Kind::X_DIV_X_SUB_XI..=Kind::X_DIV_X_SUB_WXI => NO_DEGREE,
        _ => 1,
    }
}
