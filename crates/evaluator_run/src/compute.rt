// What a well-formed list computes: the final value of every cell written, in the order in which the cells are first written.
ghost use Rattle.evaluator_run.specs.Computing.{PutAsks, PutGiven, ComputeAsks, ComputeGiven};

use crate::presence::has_rules;
use crate::run::run_list;
use evaluator_cells::cells::{CELL_LIMIT, Cells, ID_LIMIT};
use evaluator_cells::valued::{VALUED_SIZE, put_all};
use evaluator_step::step::Stop;
use frames::count::NODE_LIMIT;
use kinds::refusal::Refusal;

// The cells, where they fit, and how many they are.
fn put_cells(cells: &Cells, out: &mut [u8]) -> Result<usize, Refusal>
    requires { PutAsks cells.now.keys cells.now.count }
    ensures { PutGiven cells.now.keys cells.now.values cells.now.count out.old out.new result }
{
    if out.len() < VALUED_SIZE * cells.count {
        return Err(Refusal::Full);
    }
    put_all(cells, out);
    Ok(cells.count)
}

// How many cells are written. Where the list writes more cells than there is room for, 10 goes before 9. On a refusal `out` has not changed.
pub fn compute(
    list: &[u8],
    numbers: &[u64; NODE_LIMIT],
    values: &[u64],
    m: u64,
    out: &mut [u8],
) -> Result<usize, Refusal>
    requires { ComputeAsks numbers.now values.now m list.now }
    ensures { ComputeGiven numbers.now values.now m list.now out.old out.new result }
{
    let mut cells = Cells {
        heads: [0; ID_LIMIT],
        nexts: [0; CELL_LIMIT],
        keys: [0; CELL_LIMIT],
        values: [0; CELL_LIMIT],
        count: 0,
    };
    match run_list(&mut cells, list, numbers, values, m) {
        Ok(()) => put_cells(&cells, out),
        Err(Stop::NoRule) => Err(Refusal::NoRule),
        Err(Stop::Over) => {
            if has_rules(list, values, m) {
                return Err(Refusal::Full);
            }
            Err(Refusal::NoRule)
        }
    }
}
