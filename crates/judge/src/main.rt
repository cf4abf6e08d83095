// The program: reads a grammar and a capture from standard input, and prints the line of the answer.
#![tactic(auto)]

ghost use Rattle.std.specs.Prelude.{take};
ghost use Rattle.grammar_judge.specs.Calls.{lent};
ghost use Rattle.judge.specs.Program.{Buffers, Prints};

use answer::answer;
use transfer::{complain, read_whole, write_on};

// The line for the input that stands at the start of its buffer, in buffers of the sizes that the program has.
// kept: the whole buffer and a count, since Buffers (specs/Program.antt) says how long the whole buffer is: one byte more than an input may have.
fn line_of(
    input: &[u8],
    count: usize,
    image: &mut [u8],
    notes: &mut [u32],
    work: &mut [u32],
    line: &mut [u8],
) -> usize
    requires { Buffers input.now count image.old notes.old work.old line.old }
    ensures { Prints (take count input.now)
        (lent image.old notes.old work.old)
        (lent image.new notes.new work.new)
        line.new result }
{
    answer(&input[..count], image, notes, work, line)
}

// One byte more than an input may have is asked for, so that a longer input is noticed.
fn main(rt: HostRuntime) {
    let mut input = [0u8; 65537];
    let mut image = [0u8; 65536];
    let mut notes = [0u32; 16384];
    let mut work = [0u32; 16384];
    let mut line = [0u8; 64];
    let mut errors = rt.stderr();
    let complaint = b"judge: standard input cannot be read";
    let read = read_whole(&mut rt.stdin(), &mut input, &mut errors, complaint);
    let count = read.count;
    let long = line_of(&input, count, &mut image, &mut notes, &mut work, &mut line);
    let stop = write_on(&mut rt.stdout(), &line[..long]);
    if stop.cut_short(long) {
        complain(&mut errors, b"judge: the line cannot be written", stop);
    }
}
