// Calls on grammars as text: a text is read, and the image of its grammar built, or a capture judged by it. The match is whole.
#![tactic(auto)]

pub mod left_recursion;
pub mod replies;

ghost use Rattle.grammar_judge.specs.Calls.{lent};
ghost use Rattle.typed.specs.Calls.{BuildTextSays, JudgeTextSays};

use builder::Matching;
use builder::build::build_planned;
use builder::planning::plan_of;
use grammar::Grammar;
use grammar_judge::judge_by_grammar;
use reader::reading::read;
use refusal::Refusal;
use simulator::Judgement;

// Building, from a text: the image's length, or the first refusal. Later bytes stay, and a refusal changes none.
#[tactic(auto, using(crate::proofs::ReadRight::unread_told))]
pub fn build_text(text: &[u8], image: &mut [u8]) -> Result<usize, Refusal>
    ensures { BuildTextSays text.now result image.old image.new }
{
    let parsed = read(text)?;
    let bytes = parsed.bytes;
    let grammar = Grammar {
        bytes: &bytes[..parsed.length],
    };
    build_planned(plan_of(grammar), image, Matching::Whole)
}

// Judging a capture, by a text: the answer, or the first refusal, which changes no lent cell.
pub fn judge_text(
    text: &[u8],
    capture: &[u8],
    image: &mut [u8],
    notes: &mut [u32],
    work: &mut [u32],
) -> Result<Judgement, Refusal>
    ensures { JudgeTextSays text.now capture.now result (lent image.old notes.old work.old)
        (lent image.new notes.new work.new) }
{
    let read = read(text)?;
    let bytes = read.bytes;
    let grammar = Grammar {
        bytes: &bytes[..read.length],
    };
    judge_by_grammar(grammar, capture, image, notes, work)
}
