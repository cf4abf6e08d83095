// Moving bytes call by call, from a reader into its buffer or from a line into its writer.
ghost use Rattle.std.specs.Prelude.{◌≡◌, ◌≤◌, ◌<◌, ◌+◌, ◌↔◌, ℕ, length, take, IsTrue, IsSome, IfOk, refl, ⊤};
ghost use Rattle.std.specs.Io.KnownBytes.{Appends, Consumes, IsAtEnd};
ghost use Rattle.std.specs.IoError.{error_kind, raw_os_error};
ghost use Rattle.std.proofs.KnownBytes.{Appends-nil, Consumes-nil};
ghost use Rattle.transfer.specs.Transfers.{with_moved, Stopped};

use crate::Stop;
use std::io;
use std::io::{ErrorKind, Read, Write};

// How often interrupted calls are made again, in all: so the loop is known to end. After that an interruption is a failure.
const MOST_TRIES: u32 = 1000000;

pub trait Moves {
    // How many bytes there are to move.
    ghost long: { Self → ℕ };

    // From the first to the second so many bytes were moved.
    ghost moved: { Self → Self → ℕ → Type 0 };

    // Nothing is left for a further call.
    ghost ended: { Self → Type 0 };

    fn len(&self) -> usize
        ensures { result ≡ long self.now };

    // One call, which moves bytes behind the first so many.
    fn once(&mut self, count: usize) -> io::Result<usize>
        requires { count ≤ long self.old }
        ensures within { IfOk result (λ n. count + n ≤ long self.old) }
        ensures same_long { long self.new ≡ long self.old }
        ensures moved { (first : Self) → moved first self.old count → moved first self.new (with_moved count result) }
        ensures ended { result ≡ Ok 0 → count < long self.old → ended self.new };

    ghost none_moved: { (first : Self) → moved first first 0 };
}

// A reader, and the buffer that is read into.
#[derive(Drop)]
pub struct Reading<'a, R> {
    pub reader: &'a mut R,
    pub input: &'a mut [u8],
}

impl<R: Read> Moves for Reading<'_, R> {
    ghost long = { λ s. length s.input.now };

    ghost moved = { λ s t n. Consumes (R.remaining s.reader.now) (R.remaining t.reader.now) (take n t.input.now)
        × (t.reader.ghost_name ≡ s.reader.ghost_name) × (t.input.ghost_name ≡ s.input.ghost_name) };

    ghost ended = { λ s. IsAtEnd (R.remaining s.reader.now) };

    ghost none_moved = { λ s. (Consumes-nil _, refl, refl) };

    fn len(&self) -> usize {
        self.input.len()
    }

    #[tactic(auto, using(crate::proofs::Outcomes::read_more))]
    fn once(&mut self, count: usize) -> io::Result<usize> {
        self.reader.read(&mut self.input[count..])
    }
}

// A writer, and the line that is written to it.
#[derive(Drop)]
pub struct Writing<'a, W> {
    pub writer: &'a mut W,
    pub line: &'a [u8],
}

impl<W: Write> Moves for Writing<'_, W> {
    ghost long = { λ s. length s.line.now };

    ghost moved = { λ s t n. Appends (W.contents s.writer.now) (W.contents t.writer.now) (take n t.line.now)
        × (t.writer.ghost_name ≡ s.writer.ghost_name) × (t.line.now ≡ s.line.now) };

    ghost ended = { λ _. ⊤ };

    ghost none_moved = { λ s. (Appends-nil _, refl, refl) };

    fn len(&self) -> usize {
        self.line.len()
    }

    #[tactic(auto, using(crate::proofs::Outcomes::write_more))]
    fn once(&mut self, count: usize) -> io::Result<usize> {
        self.writer.write(&self.line[count..])
    }
}

// Whether a signal came before the call moved anything. An error of that kind without errno's number is not the system's, and a failure.
fn is_interrupted(error: &io::Error) -> bool
    ensures { IsTrue result ↔ ((error_kind error.now ≡ ErrorKind.Interrupted) × IsSome (raw_os_error error.now)) }
{
    error.kind() == ErrorKind::Interrupted && error.raw_os_error().is_some()
}

// Moves until all bytes are moved or a call moves none.
pub fn move_on<M: Moves>(moves: &mut M) -> Stop
    ensures stopped { Stopped result.last result.count (M.long moves.old) }
    ensures moved { M.moved moves.old moves.new result.count }
    ensures ended { result.last ≡ Some (Ok 0) → M.ended moves.new }
{
    let long = moves.len();
    let mut stop = Stop {
        count: 0,
        last: None,
    };
    let mut tries = MOST_TRIES;
    // kept: a turn passes as many bytes as a call moved
    while stop.count < long {
        let answer = moves.once(stop.count);
        stop.last = Some(answer);
        match answer {
            Ok(0) => break,
            Ok(moved) => stop.count += moved,
            Err(error) if is_interrupted(&error) && tries > 0 => tries -= 1,
            Err(_) => break,
        }
    }
    stop
}
