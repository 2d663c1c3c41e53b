// The sections, in document 01's order of offsets. Numbers and no enum: the records that callers lend hold them as numbers, unknown ones too.
#[derive(Drop)]
pub struct Section;

impl Section {
    pub const CM1_N: u16 = 0;

    pub const CM2_N: u16 = 1;

    pub const CM3_N: u16 = 2;

    pub const CM4_N: u16 = 3;

    pub const TMPEXP_N: u16 = 4;

    pub const CM1_2NS: u16 = 5;

    pub const CM2_2NS: u16 = 6;

    pub const CM3_2NS: u16 = 7;

    pub const CM4_2NS: u16 = 8;

    pub const Q_2NS: u16 = 9;

    pub const F_2NS: u16 = 10;

    pub const COUNT: usize = Section::F_2NS as usize + 1;
}
