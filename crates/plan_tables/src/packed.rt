// Kind, number and dimension in one number, as the walks over lists read them.
ghost use Rattle.std.specs.Prelude.{◌<◌, ◌≡◌};
ghost use Rattle.plans.specs.Plan.{number_limit};
ghost use Rattle.plan_tables.specs.Tables.{packed};

const KIND_UNIT: u64 = 0x100000000;

const NUMBER_UNIT: u64 = 0x10000;

pub fn pack(kind: u8, number: usize, dim: u16) -> u64
    requires { number < number_limit }
    ensures { result ≡ packed kind number dim }
{
    kind as u64 * KIND_UNIT + number as u64 * NUMBER_UNIT + dim as u64
}
