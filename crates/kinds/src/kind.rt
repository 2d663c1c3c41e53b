// The kind of a node or of a reference. Every byte is a kind byte to these functions: each answers, also of a byte that names no kind.
ghost use Rattle.std.specs.Prelude.{◌≡◌};
ghost use Rattle.kinds.specs.Kinds.{is_operation, is_leaf, is_node_kind, is_reference, is_result, carries_id, carries_next, carries_literal, takes_i64, child_count};

#[derive(Drop)]
pub struct Kind;

impl Kind {
    pub const ADD: u8 = 0x01;

    pub const SUB: u8 = 0x02;

    pub const MUL: u8 = 0x03;

    pub const MULADD: u8 = 0x04;

    pub const ADDC: u8 = 0x05;

    pub const MULC: u8 = 0x06;

    pub const NEG: u8 = 0x07;

    pub const CM: u8 = 0x10;

    pub const CONST: u8 = 0x11;

    pub const EXP: u8 = 0x12;

    pub const Q: u8 = 0x13;

    pub const NUMBER: u8 = 0x14;

    pub const PUBLIC: u8 = 0x15;

    pub const CHALLENGE: u8 = 0x16;

    pub const EVAL: u8 = 0x17;

    pub const X_DIV_X_SUB_XI: u8 = 0x18;

    pub const X_DIV_X_SUB_WXI: u8 = 0x19;

    pub const X: u8 = 0x1a;

    // The kinds below are those of references alone.
    pub const TMP: u8 = 0x20;

    pub const F: u8 = 0x21;

    pub const TMP_EXP: u8 = 0x22;

    pub const ZI: u8 = 0x23;

    pub const TREE1: u8 = 0x24;

    pub const TREE2: u8 = 0x25;

    pub const TREE3: u8 = 0x26;

    pub const TREE4: u8 = 0x27;

    pub const Z: u8 = 0x28;

    pub fn is_operation(kind: u8) -> bool
        ensures { result ≡ is_operation kind }
    {
        match kind {
            Kind::ADD..=Kind::NEG => true,
            _ => false,
        }
    }

    pub fn is_leaf(kind: u8) -> bool
        ensures { result ≡ is_leaf kind }
    {
        match kind {
            Kind::CM..=Kind::X => true,
            _ => false,
        }
    }

    pub fn is_node_kind(kind: u8) -> bool
        ensures { result ≡ is_node_kind kind }
    {
        match kind {
            Kind::ADD..=Kind::NEG => true,
            Kind::CM..=Kind::X => true,
            _ => false,
        }
    }

    pub fn is_reference(kind: u8) -> bool
        ensures { result ≡ is_reference kind }
    {
        match kind {
            Kind::CM..=Kind::X => true,
            Kind::TMP..=Kind::Z => true,
            _ => false,
        }
    }

    // What may be asked as a result.
    pub fn is_result(kind: u8) -> bool
        ensures { result ≡ is_result kind }
    {
        match kind {
            Kind::NUMBER => false,
            _ => Kind::is_reference(kind),
        }
    }

    // The id of a node of any other kind is 0.
    pub fn carries_id(kind: u8) -> bool
        ensures { result ≡ carries_id kind }
    {
        match kind {
            Kind::CM..=Kind::Q => true,
            Kind::PUBLIC..=Kind::EVAL => true,
            _ => false,
        }
    }

    // Every other leaf ignores its next.
    pub fn carries_next(kind: u8) -> bool
        ensures { result ≡ carries_next kind }
    {
        match kind {
            Kind::CM..=Kind::Q => true,
            _ => false,
        }
    }

    pub fn carries_literal(kind: u8) -> bool
        ensures { result ≡ carries_literal kind }
    {
        match kind {
            Kind::NUMBER => true,
            _ => Kind::takes_i64(kind),
        }
    }

    // The kinds whose literal is in the i64 range.
    pub fn takes_i64(kind: u8) -> bool
        ensures { result ≡ takes_i64 kind }
    {
        match kind {
            Kind::ADDC..=Kind::MULC => true,
            _ => false,
        }
    }

    pub fn child_count(kind: u8) -> u8
        ensures { result ≡ child_count kind }
    {
        let at = kind as usize;
        if at < TABLE_SIZE { CHILD_COUNTS[at] } else { 0 }
    }
}

const TABLE_SIZE: usize = Kind::X as usize + 1;

// The child count of each kind of a node, at its byte.
const CHILD_COUNTS: [u8; TABLE_SIZE] = [
    0, 2, 2, 2, 3, 1, 1, 1, 0, 0, 0, 0, 0, 0, 0, 0, 0, 0, 0, 0, 0, 0, 0, 0, 0, 0, 0,
];
