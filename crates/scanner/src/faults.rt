// The check of a text: its earliest fault, token by token.
ghost use Rattle.std.specs.Prelude.{◌≡◌, true, false, cond, List, ℕ, suc, ◌<◌, ltb, length, take};
ghost use Rattle.refusal.specs.Checking.{checked};
ghost use Rattle.syntax.specs.Tokens.{range, word as word_read, sign_of};
ghost use Rattle.syntax.specs.Faults as faults;
ghost use Rattle.syntax.specs.Trees.{max_depth};
ghost use Rattle.syntax.specs.Code.Heads.{heads};
ghost use Rattle.scanner.specs.Code.Scanning.{token_of, equals};
ghost use Rattle.scanner.specs.Code.Stepping.{spot_of, next_of, lines_begun, Moves, TextChecked};

use crate::names::FirstLines;
use crate::tokens::{RANGE_BYTES, is_letter, letters_from, range_at, sign_of, skip};
use crate::{MAX_DEPTH, Spot};
use refusal::{Kind, Refusal};
use syntax::{Sign, Token};

// The spot that a token leads to, and the place after it.
#[derive(Clone, Copy)]
pub struct Moved {
    pub spot: Spot,
    pub next: usize,
}

// A spot where something holds, and else refusal 15.
#[tactic(auto, unfolding(crate::specs::Code::Stepping::next_of, syntax::specs::Faults::to_if))]
fn to_if(holds: bool, spot: Spot) -> Result<Spot, Kind>
    ensures { next_of result ≡ faults.to_if holds (spot_of spot) }
{
    if holds {
        Ok(spot)
    } else {
        Err(Kind::Ungrammatical)
    }
}

// One bracket more.
#[tactic(auto, using(std::proofs::lemmas::Bool::Decides::nat_tests), unfolding(crate::specs::Code::Stepping::next_of, crate::specs::Code::Stepping::spot_of))]
fn opens(opened: usize) -> Result<Spot, Kind>
    ensures { next_of result ≡ cond (ltb opened max_depth) (faults.to (faults.inside false (suc opened))) (faults.wrong 17) }
{
    if opened < MAX_DEPTH {
        Ok(Spot::Inside(false, opened + 1))
    } else {
        Err(Kind::TooDeep)
    }
}

// A sign inside an expression.
#[tactic(auto, using(std::proofs::lemmas::Bool::Decides::nat_tests), unfolding(crate::specs::Code::Stepping::next_of, crate::specs::Code::Stepping::spot_of, syntax::specs::Faults::by_sign))]
fn by_sign(sign: Sign, complete: bool, opened: usize) -> Result<Spot, Kind>
    ensures { next_of result ≡ faults.by_sign sign complete opened }
{
    match sign {
        Sign::Operand(_) => Ok(Spot::Inside(true, opened)),
        Sign::Before(_) => Ok(Spot::Inside(false, opened)),
        Sign::After(_) => to_if(complete, Spot::Inside(true, opened)),
        Sign::Slash => to_if(complete, Spot::Inside(false, opened)),
        Sign::Opening => opens(opened),
        Sign::Closing => to_if(
            complete && 0 < opened,
            Spot::Inside(true, opened.saturating_sub(1)),
        ),
        Sign::Equals => Err(Kind::Ungrammatical),
        Sign::Semicolon => to_if(complete && opened == 0, Spot::AtLine),
    }
}

#[tactic(auto, unfolding(syntax::specs::Faults::is_equals))]
fn is_equals(token: Token) -> bool
    ensures { result ≡ equals token }
{
    matches!(token, Token::Sign(Sign::Equals))
}

// What a token leads to where = must come.
fn from_equals(token: Token) -> Result<Spot, Kind>
    ensures { (ns : List (List ℕ)) (text : List ℕ) (o : ℕ) → next_of result ≡ faults.next ns faults.at_equals (token_of text o token) }
{
    to_if(is_equals(token), Spot::Inside(false, 0))
}

// What a token leads to inside an expression.
#[tactic(auto, unfolding(crate::specs::Code::Stepping::next_of, crate::specs::Code::Stepping::spot_of, crate::specs::Code::Scanning::token_of, syntax::specs::Faults::next))]
fn from_inside(complete: bool, opened: usize, token: Token) -> Result<Spot, Kind>
    ensures { (ns : List (List ℕ)) (text : List ℕ) (o : ℕ) →
        next_of result ≡ faults.next ns (faults.inside complete opened) (token_of text o token) }
{
    match token {
        Token::Name(_) | Token::Range(_) => Ok(Spot::Inside(true, opened)),
        Token::Sign(sign) => by_sign(sign, complete, opened),
        Token::Unknown => Err(Kind::Ungrammatical),
    }
}

// What a word leads to, after the first lines. Where a line begins it must be a new name; inside an expression a name and a reserved word are operands alike.
fn by_word(first: FirstLines<'_>, spot: Spot, word: &[u8]) -> Result<Spot, Kind>
    ensures { next_of result ≡ faults.next (take first.entry.count (heads first.entry.text.now)) (spot_of spot) (word_read word.now) }
{
    match spot {
        Spot::AtLine => to_if(first.is_new(word), Spot::AtEquals),
        Spot::AtEquals => Err(Kind::Ungrammatical),
        Spot::Inside(_, opened) => Ok(Spot::Inside(true, opened)),
    }
}

// What a range leads to, whatever its ends are.
#[tactic(auto, unfolding(crate::specs::Code::Stepping::next_of, crate::specs::Code::Stepping::spot_of, syntax::specs::Faults::next))]
fn by_range(spot: Spot) -> Result<Spot, Kind>
    ensures { (ns : List (List ℕ)) (low high : ℕ) → next_of result ≡ faults.next ns (spot_of spot) (range low high) }
{
    match spot {
        Spot::AtLine | Spot::AtEquals => Err(Kind::Ungrammatical),
        Spot::Inside(_, opened) => Ok(Spot::Inside(true, opened)),
    }
}

// What a sign, or a byte that begins no token, leads to. The sign is made in the arm that goes by it: so the compiler makes one jump of the two.
fn by_byte(spot: Spot, byte: u8) -> Result<Spot, Kind>
    ensures { (ns : List (List ℕ)) → next_of result ≡ faults.next ns (spot_of spot) (sign_of byte) }
{
    match spot {
        Spot::AtLine => Err(Kind::Ungrammatical),
        Spot::AtEquals => from_equals(sign_of(byte)),
        Spot::Inside(complete, opened) => from_inside(complete, opened, sign_of(byte)),
    }
}

// What the token at a place leads to, after the first lines, and the place after it.
fn step_at(first: FirstLines<'_>, spot: Spot, offset: usize) -> Result<Moved, Kind>
    requires { offset < length first.text.now }
    ensures { Moves first.entry.text.now first.entry.count (spot_of spot) offset result }
{
    let text = first.text;
    let byte = text[offset];
    if is_letter(byte) {
        let word = letters_from(text, offset);
        let after = by_word(first, spot, word)?;
        return Ok(Moved {
            spot: after,
            next: offset + word.len(),
        });
    }
    if range_at(text, offset) {
        let after = by_range(spot)?;
        return Ok(Moved {
            spot: after,
            next: offset + RANGE_BYTES,
        });
    }
    let after = by_byte(spot, byte)?;
    Ok(Moved {
        spot: after,
        next: offset + 1,
    })
}

// How many lines a token begins that is not wrong.
#[tactic(auto, unfolding(crate::specs::Code::Stepping::spot_of, crate::specs::Code::Stepping::begins, crate::specs::Code::Stepping::lines_begun))]
fn begun(spot: Spot) -> usize
    ensures { result ≡ lines_begun (spot_of spot) }
{
    usize::from(matches!(spot, Spot::AtLine))
}

// A text of so many bytes ends at a spot, after so many lines.
#[tactic(auto, using(std::proofs::lemmas::Bool::Decides::nat_tests), unfolding(crate::specs::Code::Stepping::spot_of, syntax::specs::Faults::at_end, refusal::specs::Checking::checked))]
fn at_end(spot: Spot, lines: usize, long: usize) -> Result<(), Refusal>
    ensures { (ns : List (List ℕ)) → length ns ≡ lines → result ≡ checked (faults.at_end ns (spot_of spot) long) }
{
    if matches!(spot, Spot::AtLine) && 0 < lines {
        Ok(())
    } else {
        Err(Refusal::new(Kind::Ungrammatical, long))
    }
}

// The count of a text's lines, or its earliest fault.
// It looks at the bytes itself: `scan` is too big to be inlined, and its answer would go through memory.
// kept: a while, since a turn passes a whole token, whose width is known only when it is read.
pub fn check_text(text: &[u8]) -> Result<usize, Refusal>
    ensures { TextChecked text.now result }
{
    let mut at: usize = 0;
    let mut lines: usize = 0;
    let mut spot = Spot::AtLine;
    while at < text.len() {
        let offset = skip(text, at);
        if text.len() <= offset {
            break;
        }
        let first = FirstLines { text, count: lines };
        match step_at(first, spot, offset) {
            Ok(moved) => {
                lines += begun(spot);
                spot = moved.spot;
                at = moved.next;
            }
            Err(kind) => {
                return Err(Refusal::new(kind, offset));
            }
        }
    }
    at_end(spot, lines, text.len())?;
    Ok(lines)
}
