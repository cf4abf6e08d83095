// The program's answer: the line that it prints for an input, written into a lent buffer.
#![tactic(auto)]

pub mod input;

ghost use Rattle.grammar_judge.specs.Calls.{lent};
ghost use Rattle.answer.specs.Calls.{judged_line, PartsSay, InputSays, AnswerSays};

use answer_line::{put_answer, put_refusal};
use grammar::Grammar;
use grammar::check::check_grammar;
use grammar_judge::judge_by_grammar;
use input::{PAIRS_LENGTH, capture_offset, check_input};
use refusal::Refusal;
use simulator::Judgement;

// Judging a capture by a grammar's bytes: all checks come before the first byte is written.
fn judge_parts(
    grammar: &[u8],
    capture: &[u8],
    image: &mut [u8],
    notes: &mut [u32],
    work: &mut [u32],
) -> Result<Judgement, Refusal>
    ensures { PartsSay grammar.now capture.now (lent image.old notes.old work.old)
        (lent image.new notes.new work.new) (judged_line result) }
{
    check_grammar(grammar)?;
    let grammar = Grammar { bytes: grammar };
    judge_by_grammar(grammar, capture, image, notes, work)
}

// Judging by an input.
fn judge_input(
    input: &[u8],
    image: &mut [u8],
    notes: &mut [u32],
    work: &mut [u32],
) -> Result<Judgement, Refusal>
    ensures { InputSays input.now (lent image.old notes.old work.old)
        (lent image.new notes.new work.new) (judged_line result) }
{
    check_input(input)?;
    let middle = capture_offset(input);
    judge_parts(
        &input[PAIRS_LENGTH..middle],
        &input[middle..],
        image,
        notes,
        work,
    )
}

// The answer for an input, as a line at the start of out; answers the line's length. Where out is shorter, the line is cut off there.
pub fn answer(
    input: &[u8],
    image: &mut [u8],
    notes: &mut [u32],
    work: &mut [u32],
    out: &mut [u8],
) -> usize
    ensures { AnswerSays input.now (lent image.old notes.old work.old)
        (lent image.new notes.new work.new) out.old out.new result }
{
    match judge_input(input, image, notes, work) {
        Ok(j) => put_answer(out, j.verdict, j.readings, j.end),
        Err(refusal) => put_refusal(out, refusal.number(), refusal.place()),
    }
}
