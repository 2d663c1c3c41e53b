// A pass over a list, record by record: one that decides and one that writes.
ghost use Rattle.std.specs.Prelude.{◌≡◌, ◌+◌, ◌*◌, ◌≤◌, length};
ghost use Rattle.kinds.specs.Steps.{step_size, step_at};
ghost use Rattle.lists.specs.Records.{records_in};
ghost use Rattle.step_dimensions.specs.Answers.{given};
ghost use Rattle.dimensions.specs.Answers.{decided_says, step_to, list_to, WritesList};

use kinds::refusal::Refusal;
use kinds::step::{STEP_SIZE, Step, nth_step};
use lists::places::DEST;
use step_dimensions::known::note_dim;
use step_dimensions::lent::Lent;
use step_dimensions::source::TEMPORARIES;
use step_dimensions::step::note_step;

// By the whole record: what it takes to say why a step is refused.
fn decide_whole(
    lent: &Lent<'_>,
    temporaries: &mut [u16; TEMPORARIES],
    s: Step,
) -> Result<(), Refusal>
    ensures { decided_says result temporaries.new ≡ step_to (given lent.now) temporaries.old s }
{
    let sized = lent.step_with(temporaries, s)?;
    note_step(temporaries, sized);
    Ok(())
}

fn decide_step(
    lent: &Lent<'_>,
    temporaries: &mut [u16; TEMPORARIES],
    list: &[u8],
    k: usize,
) -> Result<(), Refusal>
    requires { step_size * k + step_size ≤ length list.now }
    ensures { decided_says result temporaries.new ≡ step_to (given lent.now) temporaries.old (step_at list.now (step_size * k)) }
{
    let at = STEP_SIZE * k;
    let Some(dim) = lent.step_dim(temporaries, list, at) else {
        return decide_whole(lent, temporaries, nth_step(list, k));
    };
    note_dim(temporaries, list, at + DEST, dim);
    Ok(())
}

// Has every step of a list its dimensions? What temporaries hold is carried on; after a refusal it is of no use.
pub fn decide_list(
    lent: &Lent<'_>,
    temporaries: &mut [u16; TEMPORARIES],
    list: &[u8],
) -> Result<(), Refusal>
    ensures { decided_says result temporaries.new ≡ list_to (given lent.now) temporaries.old (records_in list.now) }
{
    for k in 0..list.len() / STEP_SIZE {
        decide_step(lent, temporaries, list, k)?;
    }
    Ok(())
}

// Writes a list that was decided.
pub fn write_list(lent: &Lent<'_>, temporaries: &mut [u16; TEMPORARIES], list: &mut [u8])
    ensures { WritesList (given lent.now) temporaries.old temporaries.new list.old list.new }
{
    for k in 0..list.len() / STEP_SIZE {
        lent.write_dims(temporaries, list, STEP_SIZE * k);
    }
}
