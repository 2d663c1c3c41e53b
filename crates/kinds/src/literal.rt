// A literal: a sign and a magnitude.
ghost use Rattle.std.specs.Prelude.{◌≡◌};
ghost use Rattle.kinds.specs.Literals.{is_minus_zero, fits_i64, is_allowed};

use crate::kind::Kind;

#[derive(Clone, Copy)]
pub struct Literal {
    pub negative: bool,
    pub magnitude: u64,
}

impl Literal {
    const LARGEST_I64: u64 = 0x7fff_ffff_ffff_ffff;

    // Without its minus.
    const LEAST_I64: u64 = 0x8000_0000_0000_0000;

    pub fn is_minus_zero(self) -> bool
        ensures { result ≡ is_minus_zero self }
    {
        if self.negative {
            self.magnitude == 0
        } else {
            false
        }
    }

    pub fn fits_i64(self) -> bool
        ensures { result ≡ fits_i64 self }
    {
        if self.negative {
            self.magnitude <= Literal::LEAST_I64
        } else {
            self.magnitude <= Literal::LARGEST_I64
        }
    }

    // Whether a node of this kind may bring the literal.
    pub fn is_allowed(self, kind: u8) -> bool
        ensures { result ≡ is_allowed self kind }
    {
        if self.is_minus_zero() {
            return false;
        }
        if Kind::takes_i64(kind) {
            return self.fits_i64();
        }
        true
    }
}
