// Document 01's refusals, each with its number, and a refusal with the node to blame.
ghost use Rattle.std.specs.Prelude.{◌≡◌, Option, Some, None};
ghost use Rattle.meaning.specs.Refusals.{number, answer_no};
ghost use Rattle.kinds.specs.Answers.{refusal_of, answer_of, blaming_node, blaming_none};

#[derive(Clone, Copy, Debug, PartialEq, Eq)]
pub enum Refusal {
    Malformed,
    ChildCount,
    NotThere,
    Cycle,
    DoublePrime,
    SearchKind,
    NoPrimedMark,
    NoBlock,
    Full,
    NoRule,
    Counts,
    NoDimension,
    NoSet,
    NoQuotient,
    Visits,
    Bits,
    NoIdentity,
}

impl From<Refusal> for u8 {
    ghost from_gives = { λ r n. n ≡ number (refusal_of r) };

    fn from(refusal: Refusal) -> u8 {
        match refusal {
            Refusal::Malformed => 1,
            Refusal::ChildCount => 2,
            Refusal::NotThere => 3,
            Refusal::Cycle => 4,
            Refusal::DoublePrime => 5,
            Refusal::SearchKind => 6,
            Refusal::NoPrimedMark => 7,
            Refusal::NoBlock => 8,
            Refusal::Full => 9,
            Refusal::NoRule => 10,
            Refusal::Counts => 11,
            Refusal::NoDimension => 12,
            Refusal::NoSet => 13,
            Refusal::NoQuotient => 14,
            Refusal::Visits => 15,
            Refusal::Bits => 16,
            Refusal::NoIdentity => 17,
        }
    }
}

// The node to blame, where there is one.
#[derive(Clone, Copy, Debug, PartialEq, Eq)]
pub struct Refused {
    pub refusal: Refusal,
    pub node: Option<usize>,
}

impl Refused {
    pub fn at(refusal: Refusal, node: usize) -> Refused
        ensures { result ≡ blaming_node refusal node }
    {
        Refused {
            refusal,
            node: Some(node),
        }
    }
}

// No node is to blame.
impl From<Refusal> for Refused {
    ghost from_gives = { λ r f. f ≡ blaming_none r };

    fn from(refusal: Refusal) -> Refused {
        Refused {
            refusal,
            node: None,
        }
    }
}

// The number that a program in another language is answered: 0 where it was done, else the refusal's.
pub fn answer_number<T>(answer: &Result<T, Refused>) -> u8
    ensures { result ≡ answer_no (answer_of answer.now) }
{
    match answer {
        Ok(_) => NONE,
        Err(refused) => u8::from(refused.refusal),
    }
}

// The answer's number where nothing is refused.
pub const NONE: u8 = 0;
