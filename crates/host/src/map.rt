// The whole answer of a plan, for a program in another language.
ghost use Rattle.host.specs.Maps.{MapNumbered};

use kinds::refusal::answer_number;
use plan_map::map::map;

// Puts the whole answer of a plan at the front of `out`, and says how many bytes it has. They are big-endian: 12 offsets of 8 bytes, those of the eleven sections and the
// total; then numbers of 2 bytes: how many records, cm and temporary columns, q_dim; N1, N and N3 of the sections; section, dimension and position of each record; cm_n; cm_2ns;
// cm_dims; expression and record of each temporary column; exp2pol of each expression, 0xffff for none.
pub fn enonkasse_map(frames: &[u8], plan: &[u8], out: &mut [u8], size: &mut [usize; 1]) -> u8
    ensures { MapNumbered frames.now plan.now out.old out.new size.old size.new result }
{
    let mapped = map(frames, plan, out);
    if let Ok(bytes) = mapped {
        size[0] = bytes;
    }
    answer_number(&mapped)
}
