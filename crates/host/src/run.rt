// The whole run of document 01's program, for a program in another language.
ghost use Rattle.host.specs.Runs.{RunNumbered};

use kinds::refusal::answer_number;
use requests::run::run;

// Serves the requests among the frames on a fresh context of its own and puts the first list at the front of `list`; says how many steps it has, and where
// the temporary counter stands.
pub fn enonkasse_run(frames: &[u8], list: &mut [u8], totals: &mut [usize; 2]) -> u8
    ensures { RunNumbered frames.now list.old list.new totals.old totals.new result }
{
    let ran = run(frames, list);
    if let Ok(made) = ran {
        totals[0] = made.steps;
        totals[1] = made.counter;
    }
    answer_number(&ran)
}
