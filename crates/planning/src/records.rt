// Refusal 12: a record without a dimension.
ghost use Rattle.std.specs.Prelude.{◌≡◌, length, take, ◌≤◌};
ghost use Rattle.plans.specs.Columns.{record_limit};
ghost use Rattle.map_records.specs.Mapping.{some_none};

use sections::map_section::RECORD_LIMIT;

pub fn some_none(dims: &[u16; RECORD_LIMIT], n: usize) -> bool
    requires { (length dims.now ≡ record_limit) × (n ≤ record_limit) }
    ensures { result ≡ some_none (take n dims.now) }
{
    for i in 0..n {
        if dims[i] == 0 {
            return true;
        }
    }
    false
}
