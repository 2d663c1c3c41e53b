// What is answered to a pool with the constraint and two contexts.
ghost use Rattle.std.specs.Prelude.{◌≡◌};
ghost use Rattle.constraint_build.specs.Committing.{joined};

use codegen::build;

// How many steps each list has.
#[derive(Clone, Copy)]
pub struct Sizes {
    pub first: usize,
    pub i: usize,
    pub last: usize,
    pub first_2ns: usize,
    pub i_2ns: usize,
    pub last_2ns: usize,
}

// How many jobs a list has, and how many steps, where there is room for it.
#[derive(Clone, Copy)]
pub struct Fit {
    pub n: usize,
    pub room: Option<build::Sizes>,
}

// The steps of both lists, and how many bytes the frames have.
#[derive(Clone, Copy)]
pub struct Made {
    pub sizes: Sizes,
    pub bytes: usize,
}

// Where there is room for both lists.
pub fn join(one: Option<build::Sizes>, two: Option<build::Sizes>) -> Option<Sizes>
    ensures { result ≡ joined one two }
{
    let a = one?;
    let b = two?;
    Some(Sizes {
        first: a.first,
        i: a.i,
        last: a.last,
        first_2ns: b.first,
        i_2ns: b.i,
        last_2ns: b.last,
    })
}
