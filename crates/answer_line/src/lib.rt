// The answer's line as bytes, written into a buffer one byte after the other as far as there is room.
#![tactic(auto)]

ghost use Rattle.std.specs.Prelude.{◌≡◌, ◌<◌, ◌∷◌, ◌++◌, []};
ghost use Rattle.answer_line.specs.Line.{Lined, line_feed, decimal, field, refused_word, verdict_word, refusal_line, recursion_line, passes_line, answer_line};
ghost use Rattle.refusal.specs.First.{refusal};
ghost use Rattle.answer_line.specs.Code.Writing.{Writes, WritesConfig};

use machine::{Config, Verdict};
use refusal::{Kind, Refusal};

// A buffer that a line is written into, and the place to go on at.
// kept: not written by write!, since no clause says that it succeeds, and where it fails none says what it wrote.
#[derive(Drop)]
struct Line<'a> {
    out: &'a mut [u8],
    at: usize,
}

impl Line<'_> {
    #[tactic(auto, using(crate::proofs::Writing::put_full, crate::proofs::Writing::put_room))]
    fn put(&mut self, byte: u8)
        ensures { Writes (byte ∷ []) self.old self.new }
    {
        if self.at < self.out.len() {
            self.out[self.at] = byte;
            self.at += 1;
        }
    }

    fn word(&mut self, word: &[u8])
        ensures { Writes word.now self.old self.new }
    {
        for &byte in word {
            self.put(byte);
        }
    }

    // A number in decimal: all digits but the last, then the last.
    fn number(&mut self, number: u64)
        ensures { Writes (decimal number) self.old self.new }
    {
        if number >= 10 {
            self.number(number / 10);
        }
        self.put(b'0' + (number % 10) as u8);
    }

    // A number after a space.
    fn field(&mut self, number: u64)
        ensures { Writes (field number) self.old self.new }
    {
        self.put(b' ');
        self.number(number);
    }

    // A configuration: state, head, symbol.
    fn config(&mut self, c: Config)
        ensures { WritesConfig c self.old self.new }
    {
        self.field(u64::from(c.state));
        self.field(u64::from(c.head));
        self.field(u64::from(c.symbol));
    }

    // A refusal: the word, its number and its place.
    fn refusal(&mut self, number: u32, place: usize)
        ensures { Writes (refused_word ++ field number ++ field place) self.old self.new }
    {
        self.word(b"refused");
        self.field(u64::from(number));
        self.field(place as u64);
    }

    // Ends the line, and answers how many bytes of it are in the buffer.
    fn finish(&mut self) -> usize
        ensures feed { Writes (line_feed ∷ []) self.old self.new }
        ensures count { result ≡ self.new.at }
    {
        self.put(b'\n');
        self.at
    }
}

// A verdict's word.
#[tactic(auto, unfolding(crate::specs::Line::verdict_word))]
fn word_of(verdict: Verdict) -> &'static [u8]
    ensures { result.now ≡ verdict_word verdict }
{
    match verdict {
        Verdict::Accepted => b"accepted",
        Verdict::Ended => b"ended",
        Verdict::Stuck => b"stuck",
        Verdict::Looping => b"looping",
        Verdict::Halted => b"halted",
    }
}

// The line of a refusal, by any number.
pub fn put_refusal(out: &mut [u8], number: u32, place: usize) -> usize
    ensures { Lined (refusal_line (refusal number place)) out.old out.new result }
{
    let mut line = Line { out, at: 0 };
    line.refusal(number, place);
    line.finish()
}

// The line of a typed grammar with a rule that leads back to itself: the rule's number, and the offset of its line's name.
pub fn put_recursion(out: &mut [u8], rule: usize, name: usize) -> usize
    ensures { Lined (recursion_line rule name) out.old out.new result }
{
    let mut line = Line { out, at: 0 };
    let refusal = Refusal::new(Kind::LeftRecursion, rule);
    line.refusal(refusal.number(), refusal.place());
    line.field(name as u64);
    line.finish()
}

// The line of one with no such rule.
#[tactic(auto, using(crate::proofs::Writing::line_held, crate::proofs::LineLength::passes_short), unfolding(crate::specs::Line::passes_line))]
pub fn put_passes(out: &mut [u8]) -> usize
    ensures { Lined passes_line out.old out.new result }
{
    let mut line = Line { out, at: 0 };
    line.word(b"passes\n");
    line.at
}

// The line of an answer.
pub fn put_answer(out: &mut [u8], verdict: Verdict, readings: u32, end: Config) -> usize
    ensures { Lined (answer_line verdict readings end) out.old out.new result }
{
    let mut line = Line { out, at: 0 };
    line.word(word_of(verdict));
    line.field(u64::from(readings));
    line.config(end);
    line.finish()
}
