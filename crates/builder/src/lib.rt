// Building: the image of a grammar. Its byte classes, the table of its rules, its plan, and its bytes.
#![tactic(auto)]

pub mod build;
pub mod byte_classes;
pub mod planning;
pub mod rows;

ghost use Rattle.std.specs.Prelude.{◌≡◌};
ghost use Rattle.builder.specs.Matching.{default_matching};

pub use planning::Plan;

// kept: an enum and no closure, since the choice is one rule of the table, which on_byte gives.
// What of a capture a grammar must match for the built machine to accept: the whole of it, or a leading part (a prefix match).
#[derive(Clone, Copy, Debug, PartialEq, Eq)]
pub enum Matching {
    Whole,
    Leading,
}

// The choice where none is given.
#[tactic(auto, unfolding(crate::specs::Matching::default_matching))]
pub fn default_matching() -> Matching
    ensures { result ≡ default_matching }
{
    Matching::Leading
}

// A rule of the image, as its four bytes.
#[derive(Clone, Copy)]
pub struct ImageRule {
    pub kind: u8,
    pub state: u8,
    pub symbol: u8,
    pub direction: u8,
}

// The rules of a grammar rule's first and second symbol, in one state.
#[derive(Clone, Copy)]
pub struct RulePair {
    pub first: ImageRule,
    pub second: ImageRule,
}
