// How a source of a kind gets its dimension, and which kinds a step may write.
ghost use Rattle.std.specs.Prelude.{◌≡◌};
ghost use Rattle.step_dimensions.specs.Rules.{rule_number, rule_no, is_destination};

use kinds::kind::Kind;

#[derive(Clone, Copy)]
pub enum Rule {
    // What the last step that wrote the temporary gave it.
    Temporary,
    // The dimension that the reference brings.
    Own,
    // That of a record, by the number of a column.
    Column,
    // That of a record, by the number of a quotient.
    Quotient,
    One,
    Three,
    // The pass's own.
    X,
}

impl Rule {
    pub fn of(kind: u8) -> Option<Rule>
        ensures { rule_number result ≡ rule_no kind }
    {
        match kind {
            Kind::CM => Some(Rule::Column),
            Kind::CONST => Some(Rule::One),
            Kind::Q => Some(Rule::Quotient),
            Kind::NUMBER..=Kind::PUBLIC => Some(Rule::One),
            Kind::CHALLENGE..=Kind::EVAL => Some(Rule::Three),
            Kind::X_DIV_X_SUB_XI..=Kind::X => Some(Rule::X),
            Kind::TMP => Some(Rule::Temporary),
            Kind::TMP_EXP => Some(Rule::Own),
            Kind::ZI => Some(Rule::One),
            Kind::TREE1..=Kind::TREE4 => Some(Rule::Own),
            Kind::Z => Some(Rule::Three),
            _ => None,
        }
    }
}

pub fn is_destination(kind: u8) -> bool
    ensures { result ≡ is_destination kind }
{
    matches!(kind, Kind::CM | Kind::EXP..=Kind::Q | Kind::TMP..=Kind::TMP_EXP)
}
