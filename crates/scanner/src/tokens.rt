// The scanner: the first token of a text from a place on, for every text and every place.
ghost use Rattle.std.specs.Prelude.{◌≡◌, List, ℕ, ◌+◌, ◌<◌, length, drop};
ghost use Rattle.std.specs.Str.{bytes_eq};
ghost use Rattle.syntax.specs.Tokens.{letter, letters, sign_of, range_there, skipped};
ghost use Rattle.scanner.specs.Code.Scanning.{token_of, reserved, Scans, Skips, ScansWord, ScansToken};

use crate::Lexeme;
use grammar::ByteRange;
use syntax::{Leaf, Prefix, Sign, Suffix, Token};

// The bytes of a range: quote, low, minus, high, quote.
pub const RANGE_BYTES: usize = 5;

// Whether a byte is a letter, a to z.
#[tactic(auto, using(std::proofs::lemmas::Bool::Decides::nat_tests), unfolding(syntax::specs::Tokens::letter))]
pub fn is_letter(byte: u8) -> bool
    ensures { result ≡ letter byte }
{
    byte.is_ascii_lowercase()
}

// Whether a byte is a space or a line feed.
#[tactic(auto, using(std::proofs::lemmas::Bool::Decides::nat_tests), unfolding(syntax::specs::Tokens::skipped))]
fn is_skipped(byte: u8) -> bool
    ensures { result ≡ skipped byte }
{
    byte == b' ' || byte == b'\n'
}

// The first place from `at` on that is not skipped.
pub fn skip(text: &[u8], at: usize) -> usize
    ensures { Skips text.now at result }
{
    for i in at..text.len() {
        if !is_skipped(text[i]) {
            return i;
        }
    }
    at.max(text.len())
}

// The letters that stand from `at` on.
pub fn letters_from(text: &[u8], at: usize) -> &[u8]
    ensures { result.now ≡ letters (drop at text.now) }
{
    let Some(rest) = text.get(at..) else {
        return &[];
    };
    for (i, byte) in rest.iter().enumerate() {
        if !is_letter(*byte) {
            return &rest[..i];
        }
    }
    rest
}

// Whether two words are the same letters.
// kept: std's `==` makes a call where four letters are alike; with it finding a line by its name took up to 11 percent longer.
pub fn same(word: &[u8], other: &[u8]) -> bool
    ensures { result ≡ bytes_eq word.now other.now }
{
    word.len() == other.len() && word.iter().eq(other.iter())
}

// Whether a run of letters is a reserved word.
#[tactic(auto, using(crate::proofs::Tokenizing::same_bytes), unfolding(crate::specs::Code::Scanning::reserved))]
pub fn is_reserved(word: &[u8]) -> bool
    ensures { result ≡ reserved word.now }
{
    same(word, b"empty") || same(word, b"fail")
}

// The token of a run of letters: a reserved word or a name.
fn word_token(word: &[u8]) -> Token
    ensures { ScansWord word.now result }
{
    if same(word, b"empty") {
        Token::Sign(Sign::Operand(Leaf::EmptyString))
    } else if same(word, b"fail") {
        Token::Sign(Sign::Operand(Leaf::Failure))
    } else {
        Token::Name(word.len())
    }
}

// Whether a range stands at a place.
#[tactic(auto, using(crate::proofs::Tokenizing::range_short, crate::proofs::Tokenizing::range_is))]
pub fn range_at(text: &[u8], at: usize) -> bool
    requires { at < length text.now }
    ensures { result ≡ range_there (drop at text.now) }
{
    let left = text.len() - at;
    left >= RANGE_BYTES && (text[at], text[at + 2], text[at + 4]) == (b'\'', b'-', b'\'')
}

// The token that is a sign's byte, or the unknown one.
#[tactic(auto, using(std::proofs::lemmas::Bool::Decides::nat_tests), unfolding(crate::specs::Code::Scanning::token_of, syntax::specs::Tokens::sign_of))]
pub fn sign_of(byte: u8) -> Token
    ensures { (text : List ℕ) (o : ℕ) → token_of text o result ≡ sign_of byte }
{
    match byte {
        b'=' => Token::Sign(Sign::Equals),
        b';' => Token::Sign(Sign::Semicolon),
        b'/' => Token::Sign(Sign::Slash),
        b'(' => Token::Sign(Sign::Opening),
        b')' => Token::Sign(Sign::Closing),
        b'.' => Token::Sign(Sign::Operand(Leaf::AnyByte)),
        b'!' => Token::Sign(Sign::Before(Prefix::NotPredicate)),
        b'&' => Token::Sign(Sign::Before(Prefix::AndPredicate)),
        b'*' => Token::Sign(Sign::After(Suffix::ZeroOrMore)),
        b'+' => Token::Sign(Sign::After(Suffix::OneOrMore)),
        b'?' => Token::Sign(Sign::After(Suffix::Optional)),
        _ => Token::Unknown,
    }
}

// The lexeme that begins at a place.
fn lexeme_at(text: &[u8], at: usize) -> Lexeme
    requires { at < length text.now }
    ensures { ScansToken text.now at result }
{
    if is_letter(text[at]) {
        let word = letters_from(text, at);
        let token = word_token(word);
        return Lexeme {
            token,
            offset: at,
            next: at + word.len(),
        };
    }
    if range_at(text, at) {
        let low = text[at + 1];
        let high = text[at + 3];
        return Lexeme {
            token: Token::Range(ByteRange { low, high }),
            offset: at,
            next: at + RANGE_BYTES,
        };
    }
    let token = sign_of(text[at]);
    Lexeme {
        token,
        offset: at,
        next: at + 1,
    }
}

// The first lexeme from a place on.
pub fn scan(text: &[u8], at: usize) -> Option<Lexeme>
    ensures { Scans text.now at result }
{
    let offset = skip(text, at);
    if text.len() <= offset {
        return None;
    }
    Some(lexeme_at(text, offset))
}
