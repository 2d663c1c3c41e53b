// The dimensions of a step that has them, written to its record.
ghost use Rattle.std.specs.Prelude.{◌≡◌, ◌+◌, ◌≤◌, length};
ghost use Rattle.kinds.specs.Steps.{step_size};
ghost use Rattle.step_dimensions.specs.Answers.{given};
ghost use Rattle.step_dimensions.specs.Known.{put_dims, most_put, WritesDims};

use crate::known::note_dim;
use crate::lent::Lent;
use crate::source::TEMPORARIES;
use kinds::big_endian::put_u16;
use kinds::reference::REFERENCE_SIZE;
use kinds::step_op::StepOp;
use lists::places::{DEST, DIM, S0};

// Where the dimensions stand in a record.
const DEST_DIM: usize = DEST + DIM;

const S0_DIM: usize = S0 + DIM;

impl<'a> Lent<'a> {
    // Those of the sources that it needs, each of which has one; answers the largest.
    fn put_dims(
        &self,
        temporaries: &[u16; TEMPORARIES],
        needed: u8,
        list: &mut [u8],
        at: usize,
    ) -> u16
        requires { (at + step_size ≤ length list.old) × (needed ≤ 3) }
        ensures { (list.new ≡ put_dims (given self.now) temporaries.now list.old at needed) × (result ≡ most_put (given self.now) temporaries.now list.old at needed) }
    {
        let mut most: u16 = 0;
        for place in 0..needed as usize {
            let source = at + S0 + REFERENCE_SIZE * place;
            let dim = self.known_dim(temporaries, list, source).unwrap_or(0);
            put_u16(list, at + S0_DIM + REFERENCE_SIZE * place, dim);
            most = most.max(dim);
        }
        most
    }

    pub fn write_dims(&self, temporaries: &mut [u16; TEMPORARIES], list: &mut [u8], at: usize)
        requires { at + step_size ≤ length list.old }
        ensures { WritesDims (given self.now) temporaries.old list.old list.new temporaries.new at }
    {
        let needed = StepOp::sources_needed(list[at]);
        let dim = self.put_dims(temporaries, needed, list, at);
        note_dim(temporaries, list, at + DEST, dim);
        put_u16(list, at + DEST_DIM, dim);
    }
}
