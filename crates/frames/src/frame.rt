// Any frame, by its type byte.
ghost use Rattle.std.specs.Prelude.{◌≡◌};
ghost use Rattle.frames.specs.Frames.{frame_of, frame_answer};

use crate::node::{Node, node_frame};
use crate::rest::{Expression, Request, expression_frame, request_frame};

pub const NODE_TYPE: u8 = 0x01;

pub const EXPRESSION_TYPE: u8 = 0x02;

pub const REQUEST_TYPE: u8 = 0x03;

#[derive(Clone, Copy)]
pub enum Frame {
    Node(Node),
    Expression(Expression),
    Request(Request),
}

// None of a frame that is malformed.
pub fn frame_of(f: &[u8]) -> Option<Frame>
    ensures { frame_answer result ≡ frame_of f.now }
{
    match *f.first()? {
        NODE_TYPE => Some(Frame::Node(node_frame(f)?)),
        EXPRESSION_TYPE => Some(Frame::Expression(expression_frame(f)?)),
        REQUEST_TYPE => Some(Frame::Request(request_frame(f)?)),
        _ => None,
    }
}
