// What is asked for beside frames and identities, and what is chosen.
ghost use Rattle.std.specs.Prelude.{◌≡◌};
ghost use Rattle.constraint_choice.specs.Choosing.{columns_with};

use constraint_pool::judge::Columns;

// nCommitments, n_cm1 and n_cm2 as they were.
#[derive(Clone, Copy)]
pub struct Before {
    pub commitments: usize,
    pub n_cm1: usize,
    pub n_cm2: usize,
}

// The number of "vc", the bits of both domains, the visits allowed, and the columns.
#[derive(Clone, Copy)]
pub struct Asking {
    pub vc: u16,
    pub n_bits: u64,
    pub n_bits_ext: u64,
    pub limit: u64,
    pub before: Before,
}

// The quotient's degree, the visits, and how many nodes and expressions the pool with the constraint has.
#[derive(Clone, Copy)]
pub struct Chosen {
    pub q: u64,
    pub visits: u64,
    pub nodes: usize,
    pub expressions: usize,
}

impl Before {
    // With the quotients that were chosen.
    pub fn with_quotients(self, q: u64) -> Columns
        ensures { result ≡ columns_with self q }
    {
        Columns {
            commitments: self.commitments,
            n_cm1: self.n_cm1,
            n_cm2: self.n_cm2,
            quotients: q as usize,
        }
    }
}
