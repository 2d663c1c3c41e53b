// A block: the steps up to the one that writes the cell of an expression, below that expression as the circuit wrote it.
ghost use Rattle.std.specs.Prelude.{◌≤◌, length};
ghost use Rattle.wording.specs.Pages.{Puts};
ghost use Rattle.readable.specs.Blocks.{EndAsked, EndGiven};

use crate::tree::{SUM, put_tree};
use frames::count::{EXPRESSION_LIMIT, NODE_LIMIT};
use frames::tables::{NODE_WORDS, expression_at};
use kinds::kind::Kind;
use kinds::reference::Reference;
use kinds::step::nth_step;
use starkinfo_codegen::words;
use wording::text::{put_decimal, put_text};

// The last step of the block that begins at step `from`: the first from there on that writes an exp.
pub fn block_end(list: &[u8], from: usize, steps: usize) -> usize
    requires { EndAsked (length list.now) from steps }
    ensures { EndGiven list.now from steps result }
{
    for k in from..steps - 1 {
        let dest = nth_step(list, k).dest;
        if dest.kind == Kind::EXP {
            return k;
        }
    }
    steps - 1
}

// An expression as the circuit wrote it; of one that is not there, nothing.
fn put_expression(
    nodes: &[u64; NODE_WORDS],
    literals: &[u64; NODE_LIMIT],
    expressions: &[u64; EXPRESSION_LIMIT],
    page: &mut [u8],
    used: usize,
    e: u16,
) -> usize
    requires { used ≤ length page.old }
    ensures { Puts used result (length page.new) }
{
    let n = e as usize;
    if EXPRESSION_LIMIT <= n {
        return used;
    }
    let root = expression_at(expressions, n).root;
    put_tree(nodes, literals, page, used, words::NODE_LIMIT, root, SUM)
}

// The head of the block that writes a cell. An expression at the next row has its prime behind brackets.
pub fn put_head(
    nodes: &[u64; NODE_WORDS],
    literals: &[u64; NODE_LIMIT],
    expressions: &[u64; EXPRESSION_LIMIT],
    page: &mut [u8],
    used: usize,
    cell: Reference,
) -> usize
    requires { used ≤ length page.old }
    ensures { Puts used result (length page.new) }
{
    let headed = put_text(page, used, b"\nexpression ");
    let numbered = put_decimal(page, headed, cell.id as u64);
    if cell.prime == 0 {
        let row = put_text(page, numbered, b", this row: ");
        let written = put_expression(nodes, literals, expressions, page, row, cell.id);
        return put_text(page, written, b"\n");
    }
    let row = put_text(page, numbered, b", next row: (");
    let written = put_expression(nodes, literals, expressions, page, row, cell.id);
    put_text(page, written, b")'\n")
}
