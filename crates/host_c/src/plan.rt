// The plan: records, fixing, the query code, dimensions.
ghost use Rattle.host.specs.Maps.{MapNumbered};
ghost use Rattle.host.specs.Plans.{DimensionNumbered, FirstNumbered, QueryNumbered, WalkCounted};

// Puts the whole answer of a plan at the front of `out`, and says how many bytes it has. They are big-endian: 12 offsets of 8 bytes, those of the eleven sections and the
// total; then numbers of 2 bytes: how many records, cm and temporary columns, q_dim; N1, N and N3 of the sections; section, dimension and position of each record; cm_n; cm_2ns;
// cm_dims; expression and record of each temporary column; exp2pol of each expression, 0xffff for none.
#[unsafe(no_mangle)]
pub extern "C" fn enonkasse_map(
    frames: &[u8],
    plan: &[u8],
    out: &mut [u8],
    size: &mut [usize; 1],
) -> u8
    ensures { MapNumbered frames.now plan.now out.old out.new size.old size.new result }
{
    host::map::enonkasse_map(frames, plan, out, size)
}

// Fixes the references of a segment's three lists for the domain 0, "n", or 1, "2ns", and says the segment's counter after it.
#[unsafe(no_mangle)]
pub extern "C" fn enonkasse_fix(
    frames: &[u8],
    plan: &[u8],
    domain: u8,
    counter: &mut [usize; 1],
    first: &mut [u8],
    i: &mut [u8],
    last: &mut [u8],
) -> u8
    ensures { WalkCounted frames.now plan.now domain counter.old counter.new first.old i.old last.old first.new i.new last.new result }
{
    host::plan::enonkasse_fix(frames, plan, domain, counter, first, i, last)
}

// Makes trees of the cm of a segment's three lists, for the verifier's query code.
#[unsafe(no_mangle)]
pub extern "C" fn enonkasse_query(
    frames: &[u8],
    plan: &[u8],
    first: &mut [u8],
    i: &mut [u8],
    last: &mut [u8],
) -> u8
    ensures { QueryNumbered frames.now plan.now first.old i.old last.old first.new i.new last.new result }
{
    host::plan::enonkasse_query(frames, plan, first, i, last)
}

// Gives every reference of a segment's three lists its dimension, the x kinds the one of this pass.
#[unsafe(no_mangle)]
pub extern "C" fn enonkasse_dimension(
    frames: &[u8],
    plan: &[u8],
    dim_x: u16,
    first: &mut [u8],
    i: &mut [u8],
    last: &mut [u8],
) -> u8
    ensures { DimensionNumbered frames.now plan.now dim_x first.old i.old last.old first.new i.new last.new result }
{
    host::plan::enonkasse_dimension(frames, plan, dim_x, first, i, last)
}

// The same for a first list alone, where the x kinds have dimension 3.
#[unsafe(no_mangle)]
pub extern "C" fn enonkasse_dimension_first(frames: &[u8], plan: &[u8], first: &mut [u8]) -> u8
    ensures { FirstNumbered frames.now plan.now first.old first.new result }
{
    host::plan::enonkasse_dimension_first(frames, plan, first)
}
