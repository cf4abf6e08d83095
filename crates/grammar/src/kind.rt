// The kinds of a rule, by their numbers.
ghost use Rattle.grammar.specs.Kinds.{NamesKind};

#[derive(Clone, Copy, Debug, PartialEq, Eq)]
pub enum RuleKind {
    Sequence = 1,
    Choice = 2,
    Not = 3,
    Empty = 4,
    Range = 5,
}

// A number that names no kind of rule.
#[derive(Clone, Copy, Debug, PartialEq, Eq)]
pub struct UnknownKind(pub u8);

impl TryFrom<u8> for RuleKind {
    type Error = UnknownKind;

    ghost try_from_gives = { NamesKind };

    fn try_from(number: u8) -> Result<Self, UnknownKind> {
        match number {
            1 => Ok(RuleKind::Sequence),
            2 => Ok(RuleKind::Choice),
            3 => Ok(RuleKind::Not),
            4 => Ok(RuleKind::Empty),
            5 => Ok(RuleKind::Range),
            _ => Err(UnknownKind(number)),
        }
    }
}
