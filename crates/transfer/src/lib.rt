// Reading all of an input and writing all of a line or of other bytes, over the library's read and write. The end of the input and a read that failed are told apart, and a call that a signal interrupted is made again.
#![tactic(auto)]

ghost use Rattle.std.specs.Prelude.{◌≡◌, ◌++◌, false, ltb, length, take};
ghost use Rattle.std.specs.Io.KnownBytes.{Appends, Consumes, IsAtEnd};
ghost use Rattle.transfer.specs.Transfers.{has_failed, whole_of, Stopped, WholeInput, WritesFront, complaint_line, Complains};

use std::io;
use std::io::{Cursor, Read, Write};

mod moves;

use moves::{Reading, Writing, move_on};

// How many bytes were moved in all, and what the last call answered: None where no call was made.
#[derive(Clone, Copy)]
pub struct Stop {
    pub count: usize,
    pub last: Option<io::Result<usize>>,
}

impl Stop {
    // Whether the last call failed, or was interrupted once more than calls are made again.
    pub fn failed(self) -> bool
        ensures { result ≡ has_failed self.last }
    {
        matches!(self.last, Some(Err(_)))
    }

    // The last call's error, where it failed.
    fn error(self) -> Option<io::Error> {
        self.last?.err()
    }

    // Whether writing stopped before all of a line of so many bytes was written.
    pub fn cut_short(self, long: usize) -> bool
        ensures { result ≡ ltb self.count long }
    {
        self.count < long
    }
}

// How many bytes are an input, and how reading stopped.
// kept: no Result, since WholeInput says how reading stopped where it did not fail too.
#[derive(Clone, Copy)]
pub struct Input {
    pub count: usize,
    pub stop: Stop,
}

// Reads until the buffer is full or a read gives no more bytes.
pub fn read_on<R: Read>(reader: &mut R, input: &mut [u8]) -> Stop
    ensures stopped { Stopped result.last result.count (length input.new) }
    ensures bytes { Consumes (R.remaining reader.old) (R.remaining reader.new) (take result.count input.new) }
    ensures end { result.last ≡ Some (Ok 0) → IsAtEnd (R.remaining reader.new) }
{
    move_on(&mut Reading { reader, input })
}

// Writes until the line is written or a write takes no more bytes.
pub fn write_on<W: Write>(writer: &mut W, line: &[u8]) -> Stop
    ensures stopped { Stopped result.last result.count (length line.now) }
    ensures bytes { Appends (W.contents writer.old) (W.contents writer.new) (take result.count line.now) }
{
    move_on(&mut Writing { writer, line })
}

// How many bytes are an input: those read where reading came to the end or filled the buffer, and none where a read failed, which is said on standard error.
fn whole<E: Write>(errors: &mut E, stop: Stop, complaint: &[u8]) -> usize
    ensures whole { result ≡ whole_of stop.last stop.count }
    ensures silent { has_failed stop.last ≡ false → E.contents errors.new ≡ E.contents errors.old }
{
    if stop.failed() {
        complain(errors, complaint, stop);
        return 0;
    }
    stop.count
}

// Reads the whole of an input, and answers how long it is: 0, as for an empty input, where a read failed.
pub fn read_whole<R: Read, E: Write>(
    reader: &mut R,
    input: &mut [u8],
    errors: &mut E,
    complaint: &[u8],
) -> Input
    ensures whole { WholeInput result (length input.new) }
    ensures silent { has_failed result.stop.last ≡ false → E.contents errors.new ≡ E.contents errors.old }
    ensures bytes { Consumes (R.remaining reader.old) (R.remaining reader.new) (take result.stop.count input.new) }
{
    let stop = read_on(reader, input);
    let count = whole(errors, stop, complaint);
    Input { count, stop }
}

// The words of an error's text: what stands before its number, which the library writes after them in brackets.
fn words(text: &str) -> &str {
    text.rsplit_once(" (os error ")
        .map_or(text, |(words, _)| words)
}

// Writes bytes, and answers whether all of them were written.
fn write_whole<W: Write>(writer: &mut W, bytes: &[u8]) -> bool
    ensures { WritesFront bytes.now result (W.contents writer.old) (W.contents writer.new) }
{
    !write_on(writer, bytes).cut_short(bytes.len())
}

// Writes one text and then another, and answers whether all of both was written.
#[tactic(auto, using(crate::proofs::Outcomes::written_then, crate::proofs::Outcomes::written_cut))]
fn write_both<W: Write>(writer: &mut W, first: &[u8], then: &[u8]) -> bool
    ensures { WritesFront (first.now ++ then.now) result (W.contents writer.old) (W.contents writer.new) }
{
    write_whole(writer, first) && write_whole(writer, then)
}

// Writes a complaint's line, and answers whether all of it was written.
fn write_complaint<W: Write>(writer: &mut W, what: &[u8], why: &[u8]) -> bool
    ensures { WritesFront (complaint_line what.now why.now) result (W.contents writer.old) (W.contents writer.new) }
{
    write_both(writer, what, b": ") && write_both(writer, why, b"\n")
}

// Writes the line that says what failed, as the caller names it, and why, and answers whether all of it was written.
pub fn complain<E: Write>(errors: &mut E, what: &[u8], stop: Stop) -> bool
    ensures { Complains what.now result (E.contents errors.old) (E.contents errors.new) }
{
    let error = stop.error().unwrap_or(io::Error::from_raw_os_error(0));
    let mut text = Cursor::new([0u8; 256]);
    let _ = write!(text, "{error}");
    let long = text.position().min(256) as usize;
    let bytes = text.into_inner();
    let why = words(str::from_utf8(&bytes[..long]).unwrap_or(""));
    write_complaint(errors, what, why.as_bytes())
}

#[cfg(test)]
mod tests;
