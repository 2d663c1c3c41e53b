// Are the lists of a segment well formed, and does a step of so many sources run?
ghost use Rattle.std.specs.Prelude.{◌≡◌};
ghost use Rattle.lent_lists.specs.Records.{good_lists, runs_by};

use kinds::step_op::StepOp;
use lists::records::good_list;

// All three lists of a segment.
pub fn good_lists(first: &[u8], i: &[u8], last: &[u8]) -> bool
    ensures { result ≡ good_lists first.now i.now last.now }
{
    good_list(first) && good_list(i) && good_list(last)
}

// Is its step byte known, and has it the sources that the step needs?
pub fn has_step(op: u8, count: u8) -> bool
    ensures { result ≡ runs_by op count }
{
    StepOp::is_step(op) && StepOp::sources_needed(op) <= count
}
