// What planning answers.

// How many expressions the pool has, how many records the plan, and the dimension of the quotient.
#[derive(Clone, Copy, Debug, PartialEq, Eq)]
pub struct Plan {
    pub expressions: usize,
    pub records: usize,
    pub q_dim: u16,
}
