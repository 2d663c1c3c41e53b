// The lines of an answer: a line for each step and the counter's, or a refusal's alone.
ghost use Rattle.std.specs.Prelude.{◌≡◌, length};
ghost use Rattle.requests.specs.Runs.{outcome_says};
ghost use Rattle.output.specs.Records.{PutsLine};
ghost use Rattle.transcript.specs.Lines.{refused_with, shown_of, line_no, LineAsked};

use frames::count::NODE_LIMIT;
use frames::tables::NODE_WORDS;
use kinds::refusal::{NONE, Refused};
use kinds::step::nth_step;
use output::line::{LINE_SIZE, counter_line, refusal_line, step_line};
use requests::whole::Totals;

// A refusal's number, or 0 and then how many steps and temporaries there are. A number and no Result: `output_line` takes any, and `line_no` speaks of all.
#[derive(Clone, Copy)]
pub struct Shown {
    pub refusal: u8,
    pub steps: usize,
    pub counter: usize,
}

fn refused(number: u8) -> Shown
    ensures { result ≡ refused_with number }
{
    Shown {
        refusal: number,
        steps: 0,
        counter: 0,
    }
}

pub fn shown_outcome(r: Result<Totals, Refused>) -> Shown
    ensures { result ≡ shown_of (outcome_says r) }
{
    match r {
        Ok(t) => Shown {
            refusal: NONE,
            steps: t.steps,
            counter: t.counter,
        },
        Err(f) => refused(f.refusal.into()),
    }
}

// Line `k`, from 0 to the number of steps, put at the front of `out`. Answers its length.
pub fn output_line(
    nodes: &[u64; NODE_WORDS],
    literals: &[u64; NODE_LIMIT],
    list: &[u8],
    s: Shown,
    k: usize,
    out: &mut [u8; LINE_SIZE],
) -> usize
    requires { LineAsked s (length list.now) }
    ensures { PutsLine out.old (line_no nodes.now literals.now list.now s k) out.new result }
{
    if s.refusal != NONE {
        return refusal_line(s.refusal, out);
    }
    if k < s.steps {
        return step_line(nodes, literals, nth_step(list, k), out);
    }
    counter_line(s.counter as u16, out)
}
