// Is every record of a lent list well formed? The list is the caller's word, so all of it is looked at.
ghost use Rattle.std.specs.Prelude.{◌≡◌, ◌+◌, ◌≤◌, length};
ghost use Rattle.kinds.specs.References.{reference_size, ref_at};
ghost use Rattle.kinds.specs.Steps.{step_size, step_at};
ghost use Rattle.lists.specs.Records.{good_reference, good_record, good_list};

use crate::places::{COUNT, DEST, PRIME, S0, S1, S2};
use kinds::kind::Kind;
use kinds::step::STEP_SIZE;

const SOURCES: u8 = 3;

const LAST_PRIME: u8 = 1;

fn good_reference(list: &[u8], at: usize) -> bool
    requires { at + reference_size ≤ length list.now }
    ensures { result ≡ good_reference (ref_at list.now at) }
{
    Kind::is_reference(list[at]) && list[at + PRIME] <= LAST_PRIME
}

// A source that the record does not count is not looked at.
fn good_record(list: &[u8], at: usize) -> bool
    requires { at + step_size ≤ length list.now }
    ensures { result ≡ good_record (step_at list.now at) }
{
    let count = list[at + COUNT];
    count <= SOURCES
        && good_reference(list, at + DEST)
        && (count < 1 || good_reference(list, at + S0))
        && (count < 2 || good_reference(list, at + S1))
        && (count < 3 || good_reference(list, at + S2))
}

pub fn good_list(list: &[u8]) -> bool
    ensures { result ≡ good_list list.now }
{
    list.len() % STEP_SIZE == 0
        && (0..list.len() / STEP_SIZE).all(|k| good_record(list, STEP_SIZE * k))
}
