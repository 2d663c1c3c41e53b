// The result that the last of some requests asks for: a kind and an id, or none.
ghost use Rattle.std.specs.Prelude.{◌≡◌};
ghost use Rattle.kinds.specs.References.{plain_ref};
ghost use Rattle.codegen.specs.Results.{result_good};

use kinds::kind::Kind;
use kinds::reference::Reference;

// The kind byte where no result is asked for; the id is then 0.
pub const NO_KIND: u8 = 0;

const NO_ID: u16 = 0;

#[derive(Clone, Copy)]
pub struct Wanted {
    pub kind: u8,
    pub id: u16,
}

// Of the last of so many requests. Where it is not well formed it is a malformed record, refusal 1.
pub fn is_good(w: Wanted, requests: usize) -> bool
    ensures { result ≡ result_good w.kind w.id requests }
{
    if w.kind == NO_KIND {
        return w.id == NO_ID;
    }
    if !Kind::is_result(w.kind) {
        return false;
    }
    0 < requests
}

// Where it is copied to, at the request's row.
pub fn destination(w: Wanted, row: u8) -> Reference
    ensures { result ≡ plain_ref w.kind row w.id }
{
    Reference::plain(w.kind, row, w.id)
}
