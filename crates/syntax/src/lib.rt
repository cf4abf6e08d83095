// Grammars as text: tokens, the check of a text, and reading a text into a grammar's bytes.
#![tactic(auto)]

use grammar::{ByteRange, Expression};

// The operands that are a sign or a reserved word: `.`, `empty`, `fail`.
#[derive(Clone, Copy)]
pub enum Leaf {
    AnyByte,
    EmptyString,
    Failure,
}

// The prefixes: `!` and `&`.
#[derive(Clone, Copy)]
pub enum Prefix {
    NotPredicate,
    AndPredicate,
}

// The suffixes: `*`, `+` and `?`.
#[derive(Clone, Copy)]
pub enum Suffix {
    ZeroOrMore,
    OneOrMore,
    Optional,
}

// The signs. The reserved words count as signs.
#[derive(Clone, Copy)]
pub enum Sign {
    Operand(Leaf),
    Before(Prefix),
    After(Suffix),
    Slash,
    Opening,
    Closing,
    Equals,
    Semicolon,
}

// A token: a name of so many letters, a sign, a range with its two bytes; or a byte that begins none.
#[derive(Clone, Copy)]
pub enum Token {
    Name(usize),
    Sign(Sign),
    Range(ByteRange),
    Unknown,
}

// What stands for an expression whose own rule has no number yet: the rule that a name names; a rule; or the operand of `*`, whose rule names itself.
#[derive(Clone, Copy)]
pub enum Node {
    Numbered(u8),
    Operator(Expression),
    Repetition(u8),
}
