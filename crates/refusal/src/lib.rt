// Refusals: what every check of the judge answers.
#![tactic(auto)]

ghost use Rattle.std.specs.Prelude.{◌≡◌};

use std::marker::Model;

// What is refused, in the order of the table of refusals.
#[derive(Clone, Copy, Debug, PartialEq, Eq)]
pub enum Kind {
    ImageShort = 1,
    Directory,
    Counts,
    RulesLength,
    ClassMap,
    Rule,
    CaptureLong,
    NotesShort,
    WorkShort,
    NoStack,
    GrammarLength,
    GrammarRule,
    ImageBufferShort,
    Input,
    Ungrammatical,
    TooManyRules,
    TooDeep,
    Bundle,
    LeftRecursion,
}

// A refusal: what is refused, and the place that is blamed. Clauses see the number that the table gives its kind.
#[derive(Clone, Copy, Debug, PartialEq, Eq)]
pub struct Refusal {
    kind: Kind,
    place: usize,
}

impl Model for Refusal {
    ghost use Rattle.refusal.specs.Kinds.{Numbered, kind_numbered, number_of};

    ghost Value = { Numbered };

    ghost view = { λ f. record { number = number_of f.kind; place = f.place } };

    ghost inverse = { λ f. record { kind = kind_numbered f.number; place = f.place } };

    ghost use Rattle.refusal.specs.KindsBack.{same_kind};

    ghost inverse_ok = { λ f h. same_kind f };
}

impl Refusal {
    ghost use Rattle.refusal.specs.Kinds.{number_of};
    ghost use Rattle.refusal.specs.First.{refusal};

    pub fn new(kind: Kind, place: usize) -> Refusal
        ensures { result ≡ refusal (number_of kind) place }
    {
        Refusal { kind, place }
    }

    pub fn number(self) -> u32
        ensures { result ≡ self.number }
    {
        self.kind as u32
    }

    pub fn place(self) -> usize
        ensures { result ≡ self.place }
    {
        self.place
    }
}
