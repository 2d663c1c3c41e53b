// What a step does.
ghost use Rattle.std.specs.Prelude.{◌≡◌};
ghost use Rattle.kinds.specs.StepOps.{is_step, sources_needed};

#[derive(Drop)]
pub struct StepOp;

impl StepOp {
    pub const ADD: u8 = 0x01;

    pub const SUB: u8 = 0x02;

    pub const MUL: u8 = 0x03;

    pub const MULADD: u8 = 0x04;

    pub const COPY: u8 = 0x08;

    pub fn is_step(op: u8) -> bool
        ensures { result ≡ is_step op }
    {
        match op {
            StepOp::COPY => true,
            StepOp::ADD..=StepOp::MULADD => true,
            _ => false,
        }
    }

    pub fn sources_needed(op: u8) -> u8
        ensures { result ≡ sources_needed op }
    {
        match op {
            StepOp::COPY => 1,
            StepOp::MULADD => 3,
            StepOp::ADD..=StepOp::MUL => 2,
            _ => 0,
        }
    }
}
