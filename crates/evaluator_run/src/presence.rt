// Does a list run at all? Asked only of a list that writes more cells than the table has room for, where 10 goes before 9. It needs no values: one
// mark for each cell that a step may write.
ghost use Rattle.std.specs.Prelude.{◌≡◌, replicate};
ghost use Rattle.evaluator_cells.specs.Given.{lent};
ghost use Rattle.lists.specs.Records.{records_in};
ghost use Rattle.evaluator_cells.specs.Before.{Lends};
ghost use Rattle.evaluator_step.specs.Machine.{value_by};
ghost use Rattle.evaluator_run.specs.Presence.{is_known, class_no, SlotIs, slot_count, has_in, mark_as, mark_to, marks_to, marks_are};

use evaluator_cells::cells;
use evaluator_cells::cells::{ID_LIMIT, is_writable};
use evaluator_cells::given::before;
use evaluator_step::step::read_count;
use kinds::kind::Kind;
use kinds::reference::Reference;
use kinds::step::{STEP_SIZE, Step, nth_step};

const CLASSES: usize = 7;

const PRIMES: usize = cells::PRIMES as usize;

const SLOTS: usize = CLASSES * PRIMES * ID_LIMIT;

const MARKED: u8 = 1;

// The kinds that a step may write, and the last for any other, which no step marks.
fn class(kind: u8) -> usize
    ensures { result ≡ class_no kind }
{
    match kind {
        Kind::CM => 0,
        Kind::EXP => 1,
        Kind::Q => 2,
        Kind::TMP => 3,
        Kind::F => 4,
        Kind::TMP_EXP => 5,
        _ => 6,
    }
}

// A temporary is its number. Any other prime is 0 or 1, and the remainder itself.
fn slot(r: Reference) -> usize
    ensures { SlotIs r result }
{
    if r.kind == Kind::TMP {
        return class(r.kind) * PRIMES * ID_LIMIT + r.id as usize;
    }
    (class(r.kind) * PRIMES + r.prime as usize % PRIMES) * ID_LIMIT + r.id as usize
}

// Has a source a value?
fn has_value(seen: &[u8; SLOTS], values: &[u64], m: u64, r: Reference) -> bool
    requires { Lends values.now m }
    ensures { result ≡ has_in m (lent values.now) seen.now r }
{
    if r.kind == Kind::NUMBER {
        return true;
    }
    let at = slot(r);
    seen[at] == MARKED || before(values, m, r.kind, r.id as usize, r.prime as usize).is_some()
}

// Has a step a value: a rule, and a value for each source that it reads?
fn has_sources(seen: &[u8; SLOTS], values: &[u64], m: u64, s: Step) -> bool
    requires { Lends values.now m }
    ensures { result ≡ is_known (value_by m (mark_as m (lent values.now) seen.now) s) }
{
    let count = read_count(s);
    if count == 0 {
        return false;
    }
    if !has_value(seen, values, m, s.s0) {
        return false;
    }
    if count == 1 {
        return true;
    }
    if !has_value(seen, values, m, s.s1) {
        return false;
    }
    if count == 2 {
        return true;
    }
    has_value(seen, values, m, s.s2)
}

// Marks a step's destination, where it has a rule.
fn mark_step(seen: &mut [u8; SLOTS], values: &[u64], m: u64, s: Step) -> bool
    requires { Lends values.now m }
    ensures { marks_are result seen.new ≡ mark_to m (lent values.now) seen.old s }
{
    if !has_sources(seen, values, m, s) {
        return false;
    }
    let dest = s.dest;
    if is_writable(dest.kind) {
        let at = slot(dest);
        seen[at] = MARKED;
        return true;
    }
    false
}

pub fn has_rules(list: &[u8], values: &[u64], m: u64) -> bool
    requires { Lends values.now m }
    ensures { result ≡ is_known (marks_to m (lent values.now) (replicate slot_count 0) (records_in list.now)) }
{
    let mut seen = [0u8; SLOTS];
    let count = list.len() / STEP_SIZE;
    for k in 0..count {
        if !mark_step(&mut seen, values, m, nth_step(list, k)) {
            return false;
        }
    }
    true
}
