// The dimension of a leaf that leads to no expression.
ghost use Rattle.std.specs.Prelude.{◌≡◌, ◌<◌, get_or};
ghost use Rattle.frames.specs.Order.{node_limit};
ghost use Rattle.exp_dims.specs.Known.{leaf_dim_in};

use frames::tables::{NODE_WORDS, kind_at};
use kinds::kind::Kind;
use pool::words::id;

// Of a base field element, and of an element of its cubic extension.
pub const BASE: u16 = 1;

pub const EXTENSION: u16 = 3;

// A dimension that none is known for.
pub const NONE: u16 = 0;

fn cm_dim(dims: &[u16], cm: usize) -> u16
    ensures { result ≡ get_or dims.now cm 0 }
{
    if cm < dims.len() {
        return dims[cm];
    }
    NONE
}

// Both quotient kinds have the extension's here, and x the base's.
pub fn leaf_dim(nodes: &[u64; NODE_WORDS], dims: &[u16], i: usize) -> u16
    requires { i < node_limit }
    ensures { result ≡ leaf_dim_in nodes.now dims.now i }
{
    match kind_at(nodes, i) {
        Kind::CM => cm_dim(dims, id(nodes, i)),
        Kind::Q => NONE,
        Kind::CHALLENGE..=Kind::X_DIV_X_SUB_WXI => EXTENSION,
        _ => BASE,
    }
}
