// The walk that writes over a list: in place, each reference that counts becomes what it is made.
ghost use Rattle.std.specs.Prelude.{◌≡◌, ◌+◌, ◌≤◌, length};
ghost use Rattle.kinds.specs.Write.{write};
ghost use Rattle.kinds.specs.References.{reference_size, ref_at, ref_bytes};
ghost use Rattle.kinds.specs.Steps.{step_size, step_at, step_bytes};
ghost use Rattle.kinds.specs.declared.reference.Reference.{Reference};
ghost use Rattle.lent_lists.specs.Records.{used_by, record_by, rewritten};

use kinds::step::STEP_SIZE;
use lists::places::{COUNT, DEST, S0, S1, S2};

// What a reference is made.
pub trait Rewrite {
    ghost made: { Self → Reference → Reference };

    fn rewrite(&self, list: &mut [u8], at: usize)
        requires { at + reference_size ≤ length list.old }
        ensures { list.new ≡ write list.old at (ref_bytes (made self.now (ref_at list.old at))) };
}

fn rewrite_used<R: Rewrite>(rule: &R, used: bool, list: &mut [u8], at: usize)
    requires { at + reference_size ≤ length list.old }
    ensures { list.new ≡ write list.old at (ref_bytes (used_by (R.made rule.now) used (ref_at list.old at))) }
{
    if used {
        rule.rewrite(list, at)
    }
}

fn rewrite_record<R: Rewrite>(rule: &R, list: &mut [u8], at: usize)
    requires { at + step_size ≤ length list.old }
    ensures { list.new ≡ write list.old at (step_bytes (record_by (R.made rule.now) (step_at list.old at))) }
{
    let count = list[at + COUNT];
    rule.rewrite(list, at + DEST);
    rewrite_used(rule, 0 < count, list, at + S0);
    rewrite_used(rule, 1 < count, list, at + S1);
    rewrite_used(rule, 2 < count, list, at + S2);
}

pub fn rewrite_list<R: Rewrite>(rule: &R, list: &mut [u8])
    ensures { list.new ≡ rewritten (record_by (R.made rule.now)) list.old }
{
    for k in 0..list.len() / STEP_SIZE {
        rewrite_record(rule, list, STEP_SIZE * k);
    }
}
