// What is answered to frames, identities and two contexts.
use constraint_build::answer::Sizes;

// The quotient's degree, the visits, the sizes of the lists and of the frames.
#[derive(Clone, Copy)]
pub struct Generated {
    pub q: u64,
    pub visits: u64,
    pub sizes: Sizes,
    pub bytes: usize,
}
