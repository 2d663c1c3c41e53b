// Generation and the evaluator.
ghost use Rattle.codegen.specs.Building.{lists};
ghost use Rattle.host.specs.Numbered.{BuildNumbered, EvaluateNumbered, FreshNumbered, ServeNumbered, wanted};
ghost use Rattle.host.specs.Runs.{RunNumbered};

// Makes a context fresh. Where its size is not a context's it is a malformed record.
#[unsafe(no_mangle)]
pub extern "C" fn enonkasse_fresh(context: &mut [u8]) -> u8
    ensures { FreshNumbered context.old context.new result }
{
    host::enonkasse_fresh(context)
}

// Serves the requests among the frames; the last of them asks for a result of this kind and id, or, where both are 0, for none.
#[unsafe(no_mangle)]
pub extern "C" fn enonkasse_serve(
    frames: &[u8],
    kind: u8,
    id: u16,
    context: &mut [u8],
    list: &mut [u8],
) -> u8
    ensures { ServeNumbered frames.now (wanted kind id) context.old context.new list.old list.new result }
{
    host::enonkasse_serve(frames, kind, id, context, list)
}

// Builds the first, i and last lists, and says how many steps each has.
#[unsafe(no_mangle)]
pub extern "C" fn enonkasse_build(
    frames: &[u8],
    context: &mut [u8],
    list: &[u8],
    first: &mut [u8],
    i: &mut [u8],
    last: &mut [u8],
    sizes: &mut [usize; 3],
) -> u8
    ensures { BuildNumbered frames.now context.old context.new list.now (lists first.old i.old last.old) (lists first.new i.new last.new) sizes.old sizes.new result }
{
    host::enonkasse_build(frames, context, list, first, i, last, sizes)
}

// Runs a list downwards modulo a number over the pool of the frames, from the values given; puts the final value of every cell written at the front of `out`
// (12 bytes each: kind, prime, id, value), and says how many there are.
#[unsafe(no_mangle)]
pub extern "C" fn enonkasse_evaluate(
    frames: &[u8],
    list: &[u8],
    modulus: u32,
    values: &[u64],
    out: &mut [u8],
    cells: &mut [usize; 1],
) -> u8
    ensures { EvaluateNumbered frames.now list.now modulus values.now out.old out.new cells.old cells.new result }
{
    host::enonkasse_evaluate(frames, list, modulus, values, out, cells)
}

// Serves the requests among the frames on a fresh context of its own and puts the first list at the front of `list`; says how many steps it has, and where
// the temporary counter stands.
#[unsafe(no_mangle)]
pub extern "C" fn enonkasse_run(frames: &[u8], list: &mut [u8], totals: &mut [usize; 2]) -> u8
    ensures { RunNumbered frames.now list.old list.new totals.old totals.new result }
{
    host::run::enonkasse_run(frames, list, totals)
}
