// The walk that decides over the lists of a segment: each record's step, its sources from left to right, its destination; the first refusal ends it.
ghost use Rattle.std.specs.Prelude.{◌≡◌, ◌+◌, ◌≤◌, length};
ghost use Rattle.kinds.specs.References.{reference_size, ref_at};
ghost use Rattle.kinds.specs.Steps.{step_size, step_at};
ghost use Rattle.kinds.specs.declared.reference.Reference.{Reference};
ghost use Rattle.lists.specs.Records.{records_in};
ghost use Rattle.lent_lists.specs.Verdicts.{Verdict, verdict_no, judged_no};
ghost use Rattle.lent_lists.specs.Records.{segment_in};
ghost use Rattle.lent_lists.specs.Walks.{walked, used_verdict, record_verdict};

use crate::records::has_step;
use kinds::refusal::Refusal;
use kinds::step::STEP_SIZE;
use lists::places::{COUNT, DEST, S0, S1, S2};

// What is asked of each reference that counts.
pub trait Judge {
    ghost verdict: { Self → Reference → Verdict };

    fn judge(&self, list: &[u8], at: usize) -> Result<(), Refusal>
        requires { at + reference_size ≤ length list.now }
        ensures { judged_no result ≡ verdict_no (verdict self.now (ref_at list.now at)) };
}

fn judge_used<J: Judge>(judge: &J, used: bool, list: &[u8], at: usize) -> Result<(), Refusal>
    requires { at + reference_size ≤ length list.now }
    ensures { judged_no result ≡ verdict_no (used_verdict (J.verdict judge.now) used (ref_at list.now at)) }
{
    if used {
        return judge.judge(list, at);
    }
    Ok(())
}

fn judge_record<J: Judge>(judge: &J, list: &[u8], at: usize) -> Result<(), Refusal>
    requires { at + step_size ≤ length list.now }
    ensures { judged_no result ≡ verdict_no (record_verdict (J.verdict judge.now) (step_at list.now at)) }
{
    let count = list[at + COUNT];
    if !has_step(list[at], count) {
        return Err(Refusal::NoRule);
    }
    judge_used(judge, 0 < count, list, at + S0)?;
    judge_used(judge, 1 < count, list, at + S1)?;
    judge_used(judge, 2 < count, list, at + S2)?;
    judge.judge(list, at + DEST)
}

fn judge_list<J: Judge>(judge: &J, list: &[u8]) -> Result<(), Refusal>
    ensures { judged_no result ≡ verdict_no (walked (record_verdict (J.verdict judge.now)) (records_in list.now)) }
{
    for k in 0..list.len() / STEP_SIZE {
        judge_record(judge, list, STEP_SIZE * k)?;
    }
    Ok(())
}

// All three lists of a segment.
pub fn judge_lists<J: Judge>(judge: &J, first: &[u8], i: &[u8], last: &[u8]) -> Result<(), Refusal>
    ensures { judged_no result ≡ verdict_no (walked (record_verdict (J.verdict judge.now)) (segment_in first.now i.now last.now)) }
{
    judge_list(judge, first)?;
    judge_list(judge, i)?;
    judge_list(judge, last)
}
