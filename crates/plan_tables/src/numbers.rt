// The numbers of the records in some sections: of cm_n, of cm_2ns, of the temporary columns.
ghost use Rattle.std.specs.Prelude.{◌≤◌, ◌<◌, ◌≡◌, length, take};
ghost use Rattle.kinds.specs.Range.{within};
ghost use Rattle.plans.specs.Columns.{record_limit};
ghost use Rattle.plan_tables.specs.Tables.{numbers_in};
ghost use Rattle.plan_tables.specs.Listed.{Listed, Put};

use sections::map_section::RECORD_LIMIT;

// Record k behind the n numbers that are there, where its section is one of those asked for.
fn put_number(
    numbers: &mut [u16; RECORD_LIMIT],
    n: usize,
    k: usize,
    section: u16,
    from: u16,
    to: u16,
) -> usize
    requires { (n ≤ k) × (k < record_limit) }
    ensures { Put (within from to section) numbers.old numbers.new n k result }
{
    if section < from {
        return n;
    }
    if to < section {
        return n;
    }
    numbers[n] = k as u16;
    n + 1
}

// Of the first `count` records those in sections `from` to `to`; answers how many.
pub fn record_numbers(
    sections: &[u16; RECORD_LIMIT],
    count: usize,
    from: u16,
    to: u16,
    numbers: &mut [u16; RECORD_LIMIT],
) -> usize
    requires { (length sections.now ≡ record_limit) × (count ≤ record_limit) }
    ensures { Listed numbers.old numbers.new result (numbers_in from to 0 (take count sections.now)) }
{
    let mut n: usize = 0;
    for k in 0..count {
        n = put_number(numbers, n, k, sections[k], from, to);
    }
    n
}
