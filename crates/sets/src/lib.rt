// A set of expression numbers as a bit array: eight words of bits, and a ninth with how many are set. A plain array, since callers in C lend it.
#![tactic(auto)]

ghost use Rattle.std.specs.Prelude.{◌≡◌, ◌<◌, length};
ghost use Rattle.search_meaning.specs.Search.{member};
ghost use Rattle.sets.specs.Members.{members, Good, Put};

pub const SET_WORDS: usize = 9;

// Where the size stands.
const SIZE: usize = 8;

pub fn has(set: &[u64; SET_WORDS], e: usize) -> bool
    requires { e < 512 }
    ensures { result ≡ member e (members set.now) }
{
    (set[e / 64] >> (e % 64)) & 1 == 1
}

pub fn size(set: &[u64; SET_WORDS]) -> u64
    requires { Good set.now }
    ensures { result ≡ length (members set.now) }
{
    set[SIZE]
}

pub fn put(set: &mut [u64; SET_WORDS], e: usize)
    requires { (e < 512) × Good set.old }
    ensures { Put set.old e set.new }
{
    if has(set, e) {
        return;
    }
    set[e / 64] = set[e / 64] | (1 << (e % 64));
    set[SIZE] = set[SIZE] + 1;
}
