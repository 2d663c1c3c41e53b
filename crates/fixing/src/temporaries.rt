// New temporaries: one for each (prime, expression) of a segment, in the order of the walk. `plain` and `primed` have for each expression its temporary's
// number plus one, 0 for none: tables of `Option<u16>` would take twice the stack. Past the last counter there is `OVER`, which stays. The two tables are
// parameters, and no struct: by value their 256 KiB could stand on the stack twice, and of a struct of `&mut` each clause would have to say that it keeps them.
ghost use Rattle.std.specs.Prelude.{◌≡◌, ◌+◌, ◌≤◌, length};
ghost use Rattle.kinds.specs.References.{reference_size, ref_at};
ghost use Rattle.kinds.specs.Steps.{step_size, step_at};
ghost use Rattle.lists.specs.Records.{records_in};
ghost use Rattle.lent_lists.specs.Records.{segment_in};
ghost use Rattle.fixing.specs.ProverCode.{rule_kind, rule_id, rule_dim, rule_for};
ghost use Rattle.fixing.specs.Machine.{takes_temporary, GiveIs, tables, give_reference, give_used, give_record, give_records};

use kinds::big_endian::u16_at;
use kinds::kind::Kind;
use kinds::step::STEP_SIZE;
use lists::places::{COUNT, DEST, ID, PRIME, S0, S1, S2};

pub const EXPRESSION_LIMIT: usize = 512;

pub const ID_LIMIT: usize = 65536;

pub const LAST_COUNTER: usize = 65535;

const OVER: usize = LAST_COUNTER + 1;

// A rule is kind, id and dimension in one number.
const KIND_UNIT: u64 = 0x100000000;

const ID_UNIT: u64 = 0x10000;

pub fn rule_kind(rule: u64) -> u64
    ensures { result ≡ rule_kind rule }
{
    rule / KIND_UNIT
}

pub fn rule_id(rule: u64) -> u16
    ensures { result ≡ rule_id rule }
{
    (rule / ID_UNIT % ID_UNIT) as u16
}

pub fn rule_dim(rule: u64) -> u16
    ensures { result ≡ rule_dim rule }
{
    (rule % ID_UNIT) as u16
}

// An expression past the limit has no rule of its own: it gets a temporary.
pub fn rule_for(rules: &[u64; EXPRESSION_LIMIT], id: u16) -> u64
    ensures { result ≡ rule_for rules.now id }
{
    *rules.get(id as usize).unwrap_or(&0)
}

fn takes_temporary(rules: &[u64; EXPRESSION_LIMIT], id: u16) -> bool
    ensures { result ≡ takes_temporary rules.now id }
{
    let kind = rule_kind(rule_for(rules, id));
    kind != Kind::CM as u64 && kind != Kind::TMP_EXP as u64
}

fn give(table: &mut [u16; ID_LIMIT], id: u16, next: usize) -> usize
    ensures { GiveIs table.old id next table.new result }
{
    let at = id as usize;
    if table[at] != 0 {
        return next;
    }
    if LAST_COUNTER <= next {
        return OVER;
    }
    table[at] = (next + 1) as u16;
    next + 1
}

fn give_reference(
    rules: &[u64; EXPRESSION_LIMIT],
    plain: &mut [u16; ID_LIMIT],
    primed: &mut [u16; ID_LIMIT],
    next: usize,
    list: &[u8],
    at: usize,
) -> usize
    requires { at + reference_size ≤ length list.now }
    ensures { tables plain.new primed.new result ≡ give_reference rules.now (ref_at list.now at) (tables plain.old primed.old next) }
{
    if list[at] != Kind::EXP {
        return next;
    }
    let id = u16_at(list, at + ID);
    if !takes_temporary(rules, id) {
        return next;
    }
    if list[at + PRIME] == 0 {
        return give(plain, id, next);
    }
    give(primed, id, next)
}

fn give_used(
    rules: &[u64; EXPRESSION_LIMIT],
    plain: &mut [u16; ID_LIMIT],
    primed: &mut [u16; ID_LIMIT],
    next: usize,
    used: bool,
    list: &[u8],
    at: usize,
) -> usize
    requires { at + reference_size ≤ length list.now }
    ensures { tables plain.new primed.new result ≡ give_used rules.now used (ref_at list.now at) (tables plain.old primed.old next) }
{
    if used {
        return give_reference(rules, plain, primed, next, list, at);
    }
    next
}

// Its sources from left to right, then its destination.
fn give_record(
    rules: &[u64; EXPRESSION_LIMIT],
    plain: &mut [u16; ID_LIMIT],
    primed: &mut [u16; ID_LIMIT],
    next: usize,
    list: &[u8],
    at: usize,
) -> usize
    requires { at + step_size ≤ length list.now }
    ensures { tables plain.new primed.new result ≡ give_record rules.now (step_at list.now at) (tables plain.old primed.old next) }
{
    let count = list[at + COUNT];
    let first = give_used(rules, plain, primed, next, 0 < count, list, at + S0);
    let second = give_used(rules, plain, primed, first, 1 < count, list, at + S1);
    let third = give_used(rules, plain, primed, second, 2 < count, list, at + S2);
    give_reference(rules, plain, primed, third, list, at + DEST)
}

fn give_list(
    rules: &[u64; EXPRESSION_LIMIT],
    plain: &mut [u16; ID_LIMIT],
    primed: &mut [u16; ID_LIMIT],
    next: usize,
    list: &[u8],
) -> usize
    ensures { tables plain.new primed.new result ≡ give_records rules.now (records_in list.now) (tables plain.old primed.old next) }
{
    let mut after = next;
    for k in 0..list.len() / STEP_SIZE {
        after = give_record(rules, plain, primed, after, list, STEP_SIZE * k);
    }
    after
}

pub fn give_lists(
    rules: &[u64; EXPRESSION_LIMIT],
    plain: &mut [u16; ID_LIMIT],
    primed: &mut [u16; ID_LIMIT],
    counter: usize,
    first: &[u8],
    i: &[u8],
    last: &[u8],
) -> usize
    ensures { tables plain.new primed.new result ≡ give_records rules.now (segment_in first.now i.now last.now) (tables plain.old primed.old counter) }
{
    let after_first = give_list(rules, plain, primed, counter, first);
    let after_i = give_list(rules, plain, primed, after_first, i);
    give_list(rules, plain, primed, after_i, last)
}
