// The given values, in one slice of words: seven words that say how many words each section has, then the sections, cm, const and q with two words for
// each id (this row, the next row), public, challenge and eval with one for each id, and one for each x kind. Each is reduced modulo m.
ghost use Rattle.std.specs.Prelude.{◌≡◌};
ghost use Rattle.evaluator_cells.specs.Given.{lent, start_of, good_values, section, word_at, row_at};
ghost use Rattle.evaluator_cells.specs.Before.{StartAsks, WordAsks, RowAsks, GivenAsks, known, before_in};

use kinds::kind::Kind;

pub const ROWS: usize = 2;

// The sections, in their order: numbers, since they are the places of the header's words.
const CM: usize = 0;

const CONST: usize = 1;

const Q: usize = 2;

const PUBLIC: usize = 3;

const CHALLENGE: usize = 4;

const EVAL: usize = 5;

const XS: usize = 6;

const SECTIONS: usize = 7;

// Is the header there, and do the sections end where the words do? No sum of sizes wraps: one that goes past the words ends it.
pub fn good_values(values: &[u64]) -> bool
    ensures { result ≡ good_values values.now }
{
    let n = values.len();
    if n < SECTIONS {
        return false;
    }
    let mut at = SECTIONS;
    for k in 0..SECTIONS {
        let size = values[k] as usize;
        if n - at < size {
            return false;
        }
        at += size;
    }
    at == n
}

// Where section k begins.
fn section_start(values: &[u64], k: usize) -> usize
    requires { StartAsks values.now k }
    ensures { result ≡ start_of values.now k }
{
    let mut at = SECTIONS;
    for i in 0..k {
        at += values[i] as usize;
    }
    at
}

fn word_at(values: &[u64], k: usize, i: usize, m: u64) -> Option<u64>
    requires { WordAsks values.now k m }
    ensures { known result ≡ word_at m (section values.now k) i }
{
    if i < values[k] as usize {
        return Some(values[section_start(values, k) + i] % m);
    }
    None
}

fn row_at(values: &[u64], k: usize, id: usize, row: usize, m: u64) -> Option<u64>
    requires { RowAsks values.now k id row m }
    ensures { known result ≡ row_at m (section values.now k) id row }
{
    if row < ROWS {
        return word_at(values, k, ROWS * id + row, m);
    }
    None
}

// The value below m that a cell has before a step writes it. exp, tmp, f, tmpExp, Zi, the trees and Z are never given.
pub fn before(values: &[u64], m: u64, kind: u8, id: usize, row: usize) -> Option<u64>
    requires { GivenAsks values.now id row m }
    ensures { known result ≡ before_in m (lent values.now) kind id row }
{
    match kind {
        Kind::CM => row_at(values, CM, id, row, m),
        Kind::CONST => row_at(values, CONST, id, row, m),
        Kind::Q => row_at(values, Q, id, row, m),
        Kind::PUBLIC => word_at(values, PUBLIC, id, m),
        Kind::CHALLENGE => word_at(values, CHALLENGE, id, m),
        Kind::EVAL => word_at(values, EVAL, id, m),
        Kind::X_DIV_X_SUB_XI => word_at(values, XS, 0, m),
        Kind::X_DIV_X_SUB_WXI => word_at(values, XS, 1, m),
        Kind::X => word_at(values, XS, 2, m),
        _ => None,
    }
}
