// The cells that a list has written, in the order in which they were first written: a key and a value for each. They are found by their id: `heads`
// has for each id the last cell with that id, `nexts` for each cell the one before it with the same id, as its number plus one, 0 where there is
// none. At most eleven cells share an id, so a lookup never takes more than eleven turns, whatever the list.
ghost use Rattle.std.specs.Prelude.{◌≡◌, ℕ, ◌+◌, ◌<◌};
ghost use Rattle.evaluator_cells.specs.Cells.{cell_limit, key_no, place_no, writable_no, id_in, index_of, Chained, FindAsked, Adds};

use kinds::kind::Kind;
use kinds::reference::Reference;

pub const CELL_LIMIT: usize = 16384;

pub const ID_LIMIT: usize = 65536;

// A key is kind, prime and id in one number.
pub const ID_KEYS: u32 = ID_LIMIT as u32;

pub const PRIMES: u32 = 2;

#[derive(Drop)]
pub struct Cells {
    pub heads: [u16; ID_LIMIT],
    pub nexts: [u16; CELL_LIMIT],
    pub keys: [u32; CELL_LIMIT],
    pub values: [u64; CELL_LIMIT],
    pub count: usize,
}

fn key(kind: u8, prime: u8, id: u16) -> u32
    ensures { result ≡ key_no kind prime id }
{
    (kind as u32 * PRIMES + prime as u32) * ID_KEYS + id as u32
}

// A temporary is its number: its prime does not count.
pub fn place(r: Reference) -> u32
    ensures { result ≡ place_no r }
{
    if r.kind == Kind::TMP {
        return key(Kind::TMP, 0, r.id);
    }
    key(r.kind, r.prime, r.id)
}

// The kinds that a step may write.
pub fn is_writable(kind: u8) -> bool
    ensures { result ≡ writable_no kind }
{
    match kind {
        Kind::CM | Kind::EXP | Kind::Q => true,
        Kind::TMP | Kind::F | Kind::TMP_EXP => true,
        _ => false,
    }
}

fn id_of(key: u32) -> usize
    ensures { result ≡ id_in key }
{
    (key % ID_KEYS) as usize
}

impl Cells {
    pub fn find(&self, key: u32) -> Option<usize>
        requires { FindAsked self.now.heads self.now.nexts self.now.keys }
        ensures { (n : ℕ) → Chained self.now.heads self.now.nexts self.now.keys n → result ≡ index_of self.now.keys n key }
    {
        let id = id_of(key);
        let mut at = self.heads[id] as usize;
        // No `for`: each cell says which one is next.
        while 0 < at {
            let cell = at - 1;
            if self.keys[cell] == key {
                return Some(cell);
            }
            at = self.nexts[cell] as usize;
        }
        None
    }

    // A cell that is not there yet, after the others.
    pub fn add(&mut self, key: u32, value: u64)
        requires { self.old.count < cell_limit }
        ensures { Adds self.old key value self.new }
    {
        let n = self.count;
        let id = id_of(key);
        self.nexts[n] = self.heads[id];
        self.heads[id] = (n + 1) as u16;
        self.keys[n] = key;
        self.values[n] = value;
        self.count = n + 1;
    }
}
