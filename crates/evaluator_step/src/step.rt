// One step: its sources read, its value computed and stored.
ghost use Rattle.std.specs.Prelude.{◌≡◌};
ghost use Rattle.evaluator_cells.specs.Given.{lent};
ghost use Rattle.evaluator_step.specs.Machine.{count_to_read, StoreAsks, StepAsks, Reads, Values, stored, step_to, ran_to};

use evaluator_cells::arithmetic::{binary, fused};
use evaluator_cells::cells::{CELL_LIMIT, Cells, is_writable, place};
use evaluator_cells::given::before;
use evaluator_cells::numbers::number_at;
use frames::count::NODE_LIMIT;
use kinds::kind::Kind;
use kinds::reference::Reference;
use kinds::step::Step;
use kinds::step_op::StepOp;

// Why a run ends early: a step that it has no rule for, or a cell past the limit.
#[derive(Clone, Copy, Debug, PartialEq, Eq)]
pub enum Stop {
    NoRule,
    Over,
}

// How many sources a step reads; 0 where its step byte is unknown, or where it counts too few.
pub fn read_count(s: Step) -> u8
    ensures { result ≡ count_to_read s }
{
    let needed = StepOp::sources_needed(s.op);
    if needed <= s.count {
        return needed;
    }
    0
}

// The value of a source: its literal's, what a step wrote last, or what was given.
fn read(
    cells: &Cells,
    numbers: &[u64; NODE_LIMIT],
    values: &[u64],
    m: u64,
    r: Reference,
) -> Option<u64>
    requires { StepAsks numbers.now values.now m cells.now }
    ensures { Reads numbers.now (lent values.now) m cells.now r result }
{
    if r.kind == Kind::NUMBER {
        return Some(number_at(numbers, r.extra as usize));
    }
    match cells.find(place(r)) {
        Some(i) => Some(cells.values[i]),
        None => before(values, m, r.kind, r.id as usize, r.prime as usize),
    }
}

// What a step computes. There is none where it has no rule, or where a source that it reads has no value.
fn value(cells: &Cells, numbers: &[u64; NODE_LIMIT], values: &[u64], m: u64, s: Step) -> Option<u64>
    requires { StepAsks numbers.now values.now m cells.now }
    ensures { Values numbers.now (lent values.now) m cells.now s result }
{
    let count = read_count(s);
    if count == 0 {
        return None;
    }
    let a = read(cells, numbers, values, m, s.s0)?;
    if count == 1 {
        return Some(a);
    }
    let b = read(cells, numbers, values, m, s.s1)?;
    if count == 2 {
        return Some(binary(s.op, a, b, m));
    }
    let c = read(cells, numbers, values, m, s.s2)?;
    Some(fused(a, b, c, m))
}

// Over what the cell held, or as a new one after the others.
fn store(cells: &mut Cells, key: u32, v: u64) -> Result<(), Stop>
    requires { StoreAsks cells.old }
    ensures { ran_to result cells.new ≡ stored cells.old key v }
{
    if let Some(i) = cells.find(key) {
        cells.values[i] = v;
        return Ok(());
    }
    if cells.count < CELL_LIMIT {
        cells.add(key, v);
        return Ok(());
    }
    Err(Stop::Over)
}

// A step after which as many cells or one more are written.
pub fn run_step(
    cells: &mut Cells,
    numbers: &[u64; NODE_LIMIT],
    values: &[u64],
    m: u64,
    s: Step,
) -> Result<(), Stop>
    requires { StepAsks numbers.now values.now m cells.old }
    ensures { ran_to result cells.new ≡ step_to numbers.now m (lent values.now) cells.old s }
{
    let Some(v) = value(cells, numbers, values, m, s) else {
        return Err(Stop::NoRule);
    };
    let dest = s.dest;
    if is_writable(dest.kind) {
        return store(cells, place(dest), v);
    }
    Err(Stop::NoRule)
}
