// Numbers modulo m, which is below 2^32, so that every product of two of them fits.
ghost use Rattle.std.specs.Prelude.{◌≡◌, ◌+◌, ◌*◌, ◌-◌, ◌%◌};
ghost use Rattle.meaning.specs.Models.{lit_mod};
ghost use Rattle.output.specs.Records.{lit_of};
ghost use Rattle.evaluator_cells.specs.Numbers.{Modulus, Residues, FusedAsks, binary_no};

use kinds::literal::Literal;
use kinds::step_op::StepOp;

fn plus(a: u64, b: u64, m: u64) -> u64
    requires { Residues a b m }
    ensures { result ≡ (a + b) % m }
{
    (a + b) % m
}

fn minus(a: u64, b: u64, m: u64) -> u64
    requires { Residues a b m }
    ensures { result ≡ (a + (m - b % m)) % m }
{
    (a + (m - b)) % m
}

fn times(a: u64, b: u64, m: u64) -> u64
    requires { Residues a b m }
    ensures { result ≡ (a * b) % m }
{
    (a * b) % m
}

// A step of two sources: add, sub, and any other as mul.
pub fn binary(op: u8, a: u64, b: u64, m: u64) -> u64
    requires { Residues a b m }
    ensures { result ≡ binary_no m op a b }
{
    match op {
        StepOp::ADD => plus(a, b, m),
        StepOp::SUB => minus(a, b, m),
        _ => times(a, b, m),
    }
}

// muladd.
pub fn fused(a: u64, b: u64, c: u64, m: u64) -> u64
    requires { FusedAsks a b c m }
    ensures { result ≡ ((a * b) % m + c) % m }
{
    plus(times(a, b, m), c, m)
}

// A negative literal is its residue.
pub fn residue(l: Literal, m: u64) -> u64
    requires { Modulus m }
    ensures { result ≡ lit_mod m (lit_of l) }
{
    let magnitude = l.magnitude % m;
    if l.negative {
        return (m - magnitude) % m;
    }
    magnitude
}
