// The references of a list rewritten, once every temporary is given.
ghost use Rattle.std.specs.Prelude.{◌≡◌, get_or};
ghost use Rattle.lent_lists.specs.Records.{record_by};
ghost use Rattle.fixing.specs.Machine.{temporary_in, expression_in, reference_in, Rewrites};

use crate::temporaries::{EXPRESSION_LIMIT, ID_LIMIT, rule_dim, rule_for, rule_id, rule_kind};
use kinds::big_endian::{put_u16, u16_at};
use kinds::kind::Kind;
use kinds::reference::{Reference, put_reference, reference_at};
use lent_lists::rewrite::{Rewrite, rewrite_list};
use lists::places::{ID, P};

fn word_at(words: &[u16], id: u16) -> u16
    ensures { result ≡ get_or words.now id 0 }
{
    *words.get(id as usize).unwrap_or(&0)
}

// What each expression becomes, the record of each cm, and the temporaries given.
#[derive(Clone, Copy)]
struct Given<'a> {
    rules: &'a [u64; EXPRESSION_LIMIT],
    cms: &'a [u16],
    plain: &'a [u16; ID_LIMIT],
    primed: &'a [u16; ID_LIMIT],
}

impl<'a> Given<'a> {
    // A temporary's number plus one, 0 for none.
    fn temporary(&self, prime: u8, id: u16) -> u16
        ensures { result ≡ temporary_in self.now.plain.now self.now.primed.now prime id }
    {
        let at = id as usize;
        if prime == 0 {
            self.plain[at]
        } else {
            self.primed[at]
        }
    }

    // An exp: an intermediate's cm, whose p stays; a temporary column, with the expression's dimension; or its temporary, with its expression.
    fn expression(&self, r: Reference) -> Reference
        ensures { result ≡ expression_in self.now.rules.now self.now.plain.now self.now.primed.now r }
    {
        let rule = rule_for(self.rules, r.id);
        let kind = rule_kind(rule);
        if kind == Kind::CM as u64 {
            return Reference {
                kind: Kind::CM,
                id: rule_id(rule),
                ..r
            };
        }
        if kind == Kind::TMP_EXP as u64 {
            return Reference {
                kind: Kind::TMP_EXP,
                id: rule_id(rule),
                dim: rule_dim(rule),
                ..r
            };
        }
        let temporary = self.temporary(r.prime, r.id);
        if temporary == 0 {
            return r;
        }
        Reference {
            kind: Kind::TMP,
            id: temporary - 1,
            extra: r.id,
            ..r
        }
    }
}

// Only what changes is written: of a cm its p, of an exp all of it.
impl<'a> Rewrite for Given<'a> {
    ghost made = { λ s r. reference_in s.rules.now s.cms.now s.plain.now s.primed.now r };

    fn rewrite(&self, list: &mut [u8], at: usize) {
        match list[at] {
            Kind::CM => {
                let p = word_at(self.cms, u16_at(list, at + ID));
                put_u16(list, at + P, p)
            }
            Kind::EXP => {
                let r = reference_at(list, at);
                put_reference(list, at, self.expression(r))
            }
            _ => {}
        }
    }
}

// All three lists of a segment.
pub fn fix_lists(
    rules: &[u64; EXPRESSION_LIMIT],
    cms: &[u16],
    plain: &[u16; ID_LIMIT],
    primed: &[u16; ID_LIMIT],
    first: &mut [u8],
    i: &mut [u8],
    last: &mut [u8],
)
    ensures { Rewrites (record_by (reference_in rules.now cms.now plain.now primed.now)) first.old i.old last.old first.new i.new last.new }
{
    let given = Given {
        rules,
        cms,
        plain,
        primed,
    };
    rewrite_list(&given, first);
    rewrite_list(&given, i);
    rewrite_list(&given, last);
}
