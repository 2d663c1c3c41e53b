// What is answered to a pool, identities and a chosen set.
ghost use Rattle.std.specs.Prelude.{◌≡◌};
ghost use Rattle.constraint_frames.specs.Extension.{numbers_of};
ghost use Rattle.constraint_frames.specs.Numbering.{NumbersAsked};

use constraint_pool::judge::Columns;

// The constraint's number among the expressions, the columns with it, and how many bytes the frames have.
#[derive(Clone, Copy)]
pub struct Numbers {
    pub expression: usize,
    pub n_cm3: usize,
    pub n_cm4: usize,
    pub first_q: usize,
    pub commitments: usize,
    pub size: usize,
}

impl Numbers {
    // With so many members, in a pool that had `m` expressions.
    pub fn of(c: Columns, members: usize, m: usize, size: usize) -> Numbers
        requires { NumbersAsked c members }
        ensures { result ≡ numbers_of c members m size }
    {
        let first_q = c.commitments + members;
        Numbers {
            expression: m,
            n_cm3: first_q - c.n_cm1 - c.n_cm2,
            n_cm4: c.quotients,
            first_q,
            commitments: first_q + c.quotients,
            size,
        }
    }
}
