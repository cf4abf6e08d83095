// The lines of a text by their numbers: where each begins.
ghost use Rattle.std.specs.Prelude.{◌≡◌, true, false, ◌<◌, length, get_or};
ghost use Rattle.syntax.specs.Tokens.{lexemes};
ghost use Rattle.syntax.specs.RuleLines.{line_offsets};
ghost use Rattle.scanner.specs.Code.Scanning.{lexemes_at, ends};

use crate::tokens::scan;
use syntax::{Sign, Token};

// Whether a line begins after a token.
fn ends_line(token: Token) -> bool
    ensures { result ≡ ends token }
{
    matches!(token, Token::Sign(Sign::Semicolon))
}

// The place after the next semicolon from a place on, or the text's end where no token is left.
fn next_line(text: &[u8], at: usize) -> usize
    ensures { (line_offsets false (lexemes_at text.now at) ≡ line_offsets true (lexemes_at text.now result))
        × (at < length text.now → at < result) }
{
    let mut i = at;
    while let Some(l) = scan(text, i) {
        i = l.next;
        if ends_line(l.token) {
            return i;
        }
    }
    text.len()
}

// The offset of the token that a line begins with, or 0 where there are not so many lines.
// kept: 0 and no None, since its clause (get_or) says so, and a function that can't fail stays so.
pub fn line_offset(text: &[u8], line: usize) -> usize
    ensures { result ≡ get_or (line_offsets true (lexemes text.now)) line 0 }
{
    let mut at: usize = 0;
    for _ in 0..line {
        if text.len() <= at {
            return 0;
        }
        at = next_line(text, at);
    }
    match scan(text, at) {
        Some(l) => l.offset,
        None => 0,
    }
}
