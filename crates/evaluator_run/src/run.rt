// A list of well-formed records, run downwards.
ghost use Rattle.std.specs.Prelude.{◌≡◌};
ghost use Rattle.evaluator_cells.specs.Given.{lent};
ghost use Rattle.lists.specs.Records.{records_in};
ghost use Rattle.evaluator_step.specs.Machine.{StepAsks, run_to, ran_to};

use evaluator_cells::cells::Cells;
use evaluator_step::step::{Stop, run_step};
use frames::count::NODE_LIMIT;
use kinds::step::{STEP_SIZE, nth_step};

pub fn run_list(
    cells: &mut Cells,
    list: &[u8],
    numbers: &[u64; NODE_LIMIT],
    values: &[u64],
    m: u64,
) -> Result<(), Stop>
    requires { StepAsks numbers.now values.now m cells.old }
    ensures { ran_to result cells.new ≡ run_to numbers.now m (lent values.now) cells.old (records_in list.now) }
{
    let count = list.len() / STEP_SIZE;
    for k in 0..count {
        run_step(cells, numbers, values, m, nth_step(list, k))?;
    }
    Ok(())
}
