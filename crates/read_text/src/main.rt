// The program: reads a typed grammar from standard input, and writes the grammar's bytes, or the line of a refusal. With an argument it writes the line of what the check for left recursion says.
#![tactic(auto)]

ghost use Rattle.std.specs.Prelude.{true, false, take};
ghost use Rattle.answer_line.specs.Line.{refusal_line, Lined};
ghost use Rattle.refusal.specs.First.{refusal};
ghost use Rattle.read_text.specs.Program.{check_line, Holds, Buffer, TextSays, Writes};

use answer_line::{put_passes, put_recursion, put_refusal};
use reader::reading::read;
use refusal::{Kind, Refusal};
use std::env::FillError;
use std::io::Write;
use std::rt::Env;
use transfer::{Stop, complain, read_on, write_on};
use typed::left_recursion::{RecursionFault, check_text_recursion};

// The longest text, in bytes.
const MAX_TEXT: usize = 65536;

// What is written: so many bytes, from the first on. There is room for every grammar, and for every line.
// kept: no heap, so the bytes are an array and not a Vec, and their number stands beside it.
#[derive(Drop)]
pub struct Output {
    pub bytes: [u8; 124],
    pub length: usize,
}

// The line of a refusal.
fn refused(refusal: Refusal) -> Output
    ensures { Holds result (refusal_line refusal) }
{
    let mut bytes = [0u8; 124];
    let length = put_refusal(&mut bytes, refusal.number(), refusal.place());
    Output { bytes, length }
}

// The line for an input that is longer than a text may be, or that could not be read.
fn no_text() -> Output
    ensures { Holds result (refusal_line (refusal 14 0)) }
{
    refused(Refusal::new(Kind::Input, 0))
}

// The line for an input that could not be read; why not is said on standard error.
fn unread<E: Write>(errors: &mut E, stop: Stop) -> Output
    ensures { Holds result (refusal_line (refusal 14 0)) }
{
    complain(errors, b"read_text: standard input cannot be read", stop);
    no_text()
}

// The line of why a typed grammar does not pass the check for left recursion.
#[tactic(auto, unfolding(crate::specs::Program::check_line))]
fn put_fault(out: &mut [u8], fault: RecursionFault) -> usize
    ensures { Lined (check_line (Err fault)) out.old out.new result }
{
    match fault {
        RecursionFault::Refused(refusal) => put_refusal(out, refusal.number(), refusal.place()),
        RecursionFault::Recursive { rule, name } => put_recursion(out, rule, name),
    }
}

// The line of what that check answers.
#[tactic(auto, unfolding(crate::specs::Program::check_line))]
fn put_check(out: &mut [u8], checked: Result<(), RecursionFault>) -> usize
    ensures { Lined (check_line checked) out.old out.new result }
{
    match checked {
        Ok(()) => put_passes(out),
        Err(fault) => put_fault(out, fault),
    }
}

// What is written for a text that is checked.
fn check_of_text(text: &[u8]) -> Output
    ensures { TextSays true text.now result }
{
    let checked = check_text_recursion(text);
    let mut bytes = [0u8; 124];
    let length = put_check(&mut bytes, checked);
    Output { bytes, length }
}

// What is written for a text that is read: its grammar's bytes, or its refusal's line.
fn output_of_text(text: &[u8]) -> Output
    ensures { TextSays false text.now result }
{
    match read(text) {
        Ok(grammar) => {
            let bytes = grammar.bytes;
            let length = grammar.length;
            Output { bytes, length }
        }
        Err(refusal) => refused(refusal),
    }
}

// What is written for a text, by what is asked for.
// kept: a truth value and no closure, as TextSays and Writes (specs/Program.antt) take it; it is read once, from the program's argument.
fn output_by(text: &[u8], checks: bool) -> Output
    ensures { TextSays checks text.now result }
{
    if checks {
        return check_of_text(text);
    }
    output_of_text(text)
}

// What is written for the input that stands at the start of its buffer, by how reading it stopped.
fn output_of<E: Write>(input: &[u8], stop: Stop, checks: bool, errors: &mut E) -> Output
    requires { Buffer input.now stop }
    ensures { Writes checks stop.last (take stop.count input.now) result }
{
    if stop.failed() {
        return unread(errors, stop);
    }
    let count = stop.count;
    if MAX_TEXT < count {
        return no_text();
    }
    output_by(&input[..count], checks)
}

// Whether the program was started with an argument beside its own name.
fn has_argument(rt: &impl Env) -> bool {
    let mut word = [0u8; 1];
    !matches!(rt.arg(1, &mut word), Err(FillError::NotPresent))
}

// One byte more than a text may have is asked for, so that a longer input is noticed.
fn main(rt: HostRuntime) {
    let mut input = [0u8; 65537];
    let mut errors = rt.stderr();
    let stop = read_on(&mut rt.stdin(), &mut input);
    let checks = has_argument(&rt);
    let output = output_of(&input, stop, checks, &mut errors);
    let bytes = output.bytes;
    let long = output.length;
    let end = write_on(&mut rt.stdout(), &bytes[..long]);
    if end.cut_short(long) {
        complain(&mut errors, b"read_text: the output cannot be written", end);
    }
}
