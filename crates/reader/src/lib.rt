// The reader of grammars as text: the lines of a legal text into the bytes of their grammar.
#![tactic(auto)]

pub mod cursor;
pub mod definitions;
pub mod owners;
pub mod reading;
pub mod replies;

use expressions::Rules;

// The most rules that a grammar has.
pub const MAX_RULES: usize = 31;

// The lines of a text, read into rules, and for each line the number after its last helper rule.
// kept: no heap, so the numbers are an array for the most lines, of which the first ones count.
#[derive(Clone, Copy)]
pub struct Lines {
    pub rules: Rules,
    pub ends: [u8; 31],
}

// The grammar that was read: so many bytes. The bytes after those are 0.
// kept: no heap, so the bytes are an array for the longest grammar and not a Vec, and their number stands beside it.
#[derive(Clone, Copy)]
pub struct GrammarBytes {
    pub bytes: [u8; 124],
    pub length: usize,
}

// The same, and what reading knows of the lines: how many there are, and for each the number after its last helper rule.
// kept: no heap, so the numbers are an array for the most lines and not a Vec, and how many lines there are stands beside it.
#[derive(Clone, Copy)]
pub struct ReadText {
    pub grammar: GrammarBytes,
    pub lines: usize,
    pub ends: [u8; 31],
}
