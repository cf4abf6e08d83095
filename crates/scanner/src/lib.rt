// The scanner of grammars as text, and what is found by it without any syntax tree: the lines by name, and the earliest fault of a text.
#![tactic(auto)]

pub mod faults;
pub mod lines;
pub mod names;
pub mod tokens;
pub mod undefined;

use syntax::Token;

// The brackets that may be open at once.
pub const MAX_DEPTH: usize = 16;

// A token with its offset, and the offset after it.
#[derive(Clone, Copy)]
pub struct Lexeme {
    pub token: Token,
    pub offset: usize,
    pub next: usize,
}

// What the letters where a line begins are to the search for a name: the name sought, another name, or none.
#[derive(Clone, Copy)]
pub enum Head {
    Sought,
    Other,
    Nothing,
}

// Where in a text: a line begins, its = must come, or an expression goes on, whose last operand is complete or not, with so many brackets open.
#[derive(Clone, Copy)]
pub enum Spot {
    AtLine,
    AtEquals,
    Inside(bool, usize),
}
