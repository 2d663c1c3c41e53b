// A step, and its record in a list of bytes.
ghost use Rattle.std.specs.Prelude.{◌≡◌, ◌+◌, ◌*◌, ◌≤◌, length};
ghost use Rattle.kinds.specs.Write.{write};
ghost use Rattle.kinds.specs.Steps.{step_size, step_at, step_bytes, head_bytes};

use crate::big_endian::{put_two, put_u16, u16_at};
use crate::reference::{REFERENCE_SIZE, Reference, put_reference, reference_at};

// `count` is the number of sources, from `s0` on; emission leaves the others blank.
#[derive(Clone, Copy)]
pub struct Step {
    pub op: u8,
    pub count: u8,
    pub origin: u16,
    pub dest: Reference,
    pub s0: Reference,
    pub s1: Reference,
    pub s2: Reference,
}

// The places of a record's parts.
const DEST: usize = 4;

const S0: usize = DEST + REFERENCE_SIZE;

const S1: usize = S0 + REFERENCE_SIZE;

const S2: usize = S1 + REFERENCE_SIZE;

pub const STEP_SIZE: usize = S2 + REFERENCE_SIZE;

impl Step {
    // The origin of a step that no node is known for.
    pub const NO_ORIGIN: u16 = 0xffff;
}

pub fn step_at(list: &[u8], at: usize) -> Step
    requires { at + step_size ≤ length list.now }
    ensures { result ≡ step_at list.now at }
{
    Step {
        op: list[at],
        count: list[at + 1],
        origin: u16_at(list, at + 2),
        dest: reference_at(list, at + DEST),
        s0: reference_at(list, at + S0),
        s1: reference_at(list, at + S1),
        s2: reference_at(list, at + S2),
    }
}

fn put_head(list: &mut [u8], at: usize, op: u8, count: u8, origin: u16)
    requires { at + 4 ≤ length list.old }
    ensures { list.new ≡ write list.old at (head_bytes op count origin) }
{
    put_two(list, at, op, count);
    put_u16(list, at + 2, origin);
}

pub fn put_step(list: &mut [u8], at: usize, s: Step)
    requires { at + step_size ≤ length list.old }
    ensures { list.new ≡ write list.old at (step_bytes s) }
{
    put_head(list, at, s.op, s.count, s.origin);
    put_reference(list, at + DEST, s.dest);
    put_reference(list, at + S0, s.s0);
    put_reference(list, at + S1, s.s1);
    put_reference(list, at + S2, s.s2);
}

// The step of a number, in a list of steps that starts at byte 0.
pub fn nth_step(list: &[u8], n: usize) -> Step
    requires { step_size * n + step_size ≤ length list.now }
    ensures { result ≡ step_at list.now (step_size * n) }
{
    step_at(list, STEP_SIZE * n)
}

pub fn put_nth_step(list: &mut [u8], n: usize, s: Step)
    requires { step_size * n + step_size ≤ length list.old }
    ensures { list.new ≡ write list.old (step_size * n) (step_bytes s) }
{
    put_step(list, STEP_SIZE * n, s)
}
