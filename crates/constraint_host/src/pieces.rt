// The pieces on a lent context.
ghost use Rattle.constraint_host.specs.Numbered.{MarkNumbered, CloseNumbered};

use constraint_pieces::close::close;
use constraint_pieces::mark::mark;
use kinds::refusal::answer_number;

// Marks these expressions of a pool that has so many at both rows: they stand in columns, and no list makes them any more.
pub fn enonkasse_mark(members: &[u64], expressions: usize, context: &mut [u8], list: &[u8]) -> u8
    ensures { MarkNumbered members.now expressions context.old context.new list.now result }
{
    answer_number(&mark(members, expressions, context, list))
}

// Puts the closing product, q0 = the last destination times Zi, at the end of the last block of a context of a pool that has so many expressions.
pub fn enonkasse_close(expressions: usize, context: &mut [u8], list: &mut [u8]) -> u8
    ensures { CloseNumbered expressions context.old context.new list.old list.new result }
{
    answer_number(&close(expressions, context, list))
}
