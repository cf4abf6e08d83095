// Reading an expression of a grammar as text: its tokens into the rules of a grammar, which are made while it is read.
#![tactic(auto)]

pub mod descent;
pub mod emitter;
pub mod lookahead;
pub mod operators;

use syntax::Node;

// The rules made so far, four bytes each: the number of the next helper rule, and how many more rules the line may need. They are lent while lines are read.
// kept: no heap, so the bytes are an array for the most rules and not a Vec, and how many rules are made stands beside it.
#[derive(Clone, Copy)]
pub struct Rules {
    pub bytes: [u8; 124],
    pub next: usize,
    pub left: usize,
}

// An expression that was read, up to a place: what stands for it. The rules of its parts are made.
#[derive(Clone, Copy)]
pub struct Part {
    pub at: usize,
    pub node: Node,
}

// No expression, or one that needs more rules than were left: the place where that was seen.
#[derive(Clone, Copy, Debug, PartialEq, Eq)]
pub struct Unfit {
    pub at: usize,
}

// The levels of an expression that join parts: a sequence of parts, and a choice of sequences.
#[derive(Clone, Copy, Debug, PartialEq, Eq)]
pub enum Level {
    Sequences,
    Choices,
}
