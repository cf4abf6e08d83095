// The names of a text: the number of the line that a name names, and where the next word is.
ghost use Rattle.std.specs.Prelude.{◌≡◌, true, false, ◌+◌, ◌<◌, ◌≤◌, length, take, drop};
ghost use Rattle.codec.specs.Bytes.{byte};
ghost use Rattle.syntax.specs.Tokens.{letter, width_at, word as word_read};
ghost use Rattle.syntax.specs.Faults.{undefined_in};
ghost use Rattle.syntax.specs.Compile.{index_of};
ghost use Rattle.syntax.specs.Code.Heads.{heads};
ghost use Rattle.scanner.specs.Code.Naming.{head_in, stops, PassesHeads, PassesNames};

use crate::Head;
use crate::tokens::{RANGE_BYTES, is_letter, is_reserved, letters_from, range_at, same, skip};

// So many lines of a text: the first ones.
#[derive(Clone, Copy)]
pub struct FirstLines<'a> {
    pub text: &'a [u8],
    pub count: usize,
    ghost few: { count ≤ length (heads text.now) },
}

impl<'a> FirstLines<'a> {
    // Whether a word is a name that none of the lines has.
    pub fn is_new(self, word: &[u8]) -> bool
        ensures { result ≡ undefined_in (take self.entry.count (heads self.entry.text.now)) (word_read word.now) }
    {
        !is_reserved(word) && self.count <= line_of(self.text, word)
    }
}

// The place after a quote, or after the range that begins with it.
fn after_quote(text: &[u8], at: usize) -> usize
    requires { (at < length text.now) × (byte text.now at ≡ 39) }
    ensures { result ≡ at + width_at (drop at text.now) }
{
    if range_at(text, at) {
        return at + RANGE_BYTES;
    }
    at + 1
}

// Whether a byte inside a line cannot be passed alone whatever follows: a semicolon ends the line, a quote may begin a range.
#[tactic(auto, using(std::proofs::lemmas::Bool::Decides::nat_tests), unfolding(crate::specs::Code::Naming::stops))]
fn is_stop(byte: u8) -> bool
    ensures { result ≡ stops byte }
{
    byte == b';' || byte == b'\''
}

// The next stop from a place on, or, with no stop before it, a place less than four bytes before the text's end.
// kept: a byte a turn, as `position` passes them, took a quarter longer in the median over four layouts of the code.
fn next_stop(text: &[u8], at: usize) -> usize
    requires { at ≤ length text.now }
    ensures { PassesHeads text.now false at false result }
{
    let mut i = at;
    while i + 3 < text.len() {
        if is_stop(text[i]) {
            return i;
        }
        if is_stop(text[i + 1]) {
            return i + 1;
        }
        if is_stop(text[i + 2]) {
            return i + 2;
        }
        if is_stop(text[i + 3]) {
            return i + 3;
        }
        i += 4;
    }
    i
}

// The place after the next semicolon from a place on, or the text's end; a semicolon inside a range is none.
// kept: a turn passes what `next_stop` passes, or a range of five bytes, so no iterator goes its way.
fn after_line(text: &[u8], at: usize) -> usize
    ensures { PassesHeads text.now false at true result × (at < length text.now → at < result) }
{
    let mut i = at;
    while i < text.len() {
        i = next_stop(text, i);
        // Where no stop is left, this may be the text's end.
        match text.get(i) {
            Some(b';') => return i + 1,
            Some(b'\'') => i = after_quote(text, i),
            Some(_) => i += 1,
            None => return i,
        }
    }
    i
}

// The place of the next letter that is in no range, or the text's end.
// kept: a while, since a turn passes one byte, or a range of five.
pub fn next_word(text: &[u8], at: usize) -> usize
    ensures { PassesNames text.now at result × (result < length text.now → letter (byte text.now result) ≡ true) }
{
    let mut i = at;
    while i < text.len() {
        let byte = text[i];
        if is_letter(byte) {
            return i;
        }
        if byte == b'\'' {
            i = after_quote(text, i);
        } else {
            i += 1;
        }
    }
    i
}

// What the letters where a line begins are to the search for a name: a name there is the line's head.
fn head_of(name: &[u8], word: &[u8]) -> Head
    ensures { result ≡ head_in name.now word.now }
{
    if word.is_empty() || is_reserved(word) {
        Head::Nothing
    } else if same(name, word) {
        Head::Sought
    } else {
        Head::Other
    }
}

// The number of the line that a name names, or the count of lines where it names none.
// kept: a while, since a turn passes a whole line.
pub fn line_of(text: &[u8], name: &[u8]) -> usize
    ensures { result ≡ index_of name.now (heads text.now) }
{
    let mut at: usize = 0;
    let mut line: usize = 0;
    while at < text.len() {
        let offset = skip(text, at);
        let word = letters_from(text, offset);
        match head_of(name, word) {
            Head::Sought => return line,
            Head::Other => line += 1,
            Head::Nothing => {}
        }
        // A line whose first token is no word is passed from that token on: it may be the semicolon.
        at = after_line(text, offset + word.len());
    }
    line
}
