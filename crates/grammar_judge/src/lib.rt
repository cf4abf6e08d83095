// Judging a whole capture by a grammar's bytes: all checks, then building and judging in lent buffers.
#![tactic(auto)]

ghost use Rattle.std.specs.Prelude.{◌≡◌};
ghost use Rattle.refusal.specs.Checking.{checked};
ghost use Rattle.simulator.specs.Calls.{judge_refusal, JudgeSays};
ghost use Rattle.builder.specs.declared.Matching.TheVariants.{Whole};
ghost use Rattle.builder.specs.Image.{built};
ghost use Rattle.grammar_judge.specs.Calls.{lent, lent_refusal, parts_refusal, Builds, JudgesBy};
ghost use Rattle.grammar_judge.specs.Code.Steps.{JudgeReady};

use builder::build::{build_checked, check_room};
use builder::planning::{cells_of, plan_of};
use builder::{Matching, Plan};
use grammar::Grammar;
use image::format::MAX_CAPTURE;
use refusal::{Kind, Refusal};
use simulator::judge::judge_checked;
use simulator::{Judgement, judge};

// Refusals 7 to 9: how many cells a grammar's machine needs follows from the grammar and the capture's length.
fn check_cells(
    grammar: Grammar<'_>,
    capture: &[u8],
    notes: usize,
    work: usize,
) -> Result<(), Refusal>
    ensures { result ≡ checked (judge_refusal (built Whole grammar.entry.bytes.now) capture.now notes work) }
{
    let n = capture.len();
    if MAX_CAPTURE < n {
        return Err(Refusal::new(Kind::CaptureLong, n));
    }
    judge::check_cells(cells_of(grammar, n), notes, work)
}

// Refusals 13 and 7 to 9.
pub fn check_lent(
    plan: Plan<'_>,
    capture: &[u8],
    image: usize,
    notes: usize,
    work: usize,
) -> Result<(), Refusal>
    ensures { result ≡ checked (parts_refusal plan.entry.grammar.bytes.now capture.now image notes work) }
{
    check_room(plan.long, image)?;
    check_cells(plan.grammar, capture, notes, work)
}

// Judging by a good image in the first so many of the lent cells.
fn judge_lent(
    image: &[u8],
    capture: &[u8],
    cells: usize,
    notes: &mut [u32],
    work: &mut [u32],
) -> Judgement
    requires { JudgeReady image.now capture.now cells notes.old work.old }
    ensures { JudgeSays image.now capture.now (Ok result)
        notes.old notes.new work.old work.new }
{
    judge_checked(image, capture, &mut notes[..cells], &mut work[..cells])
}

// The image is built, and the capture judged by it: nothing is refused, and nothing checked again.
pub fn build_and_judge(
    plan: Plan<'_>,
    capture: &[u8],
    image: &mut [u8],
    notes: &mut [u32],
    work: &mut [u32],
) -> Judgement
    requires { (lent_refusal plan.grammar.bytes.now capture.now (lent image.old notes.old work.old)).number ≡ 0 }
    ensures { Builds plan.entry.grammar.bytes.now capture.now (lent image.old notes.old work.old)
        (lent image.new notes.new work.new) result }
{
    let long = plan.long;
    build_checked(plan, &mut image[..long], Matching::Whole);
    let cells = cells_of(plan.grammar, capture.len());
    judge_lent(&image[..long], capture, cells, notes, work)
}

// Judges a capture by a grammar: all checks of what is lent come before the first byte is written.
// kept: image, notes and work are three parameters, here and in typed and answer: the image goes to build_checked, the others to judge_checked, and a struct of the three would be taken apart for either.
pub fn judge_by_grammar(
    grammar: Grammar<'_>,
    capture: &[u8],
    image: &mut [u8],
    notes: &mut [u32],
    work: &mut [u32],
) -> Result<Judgement, Refusal>
    ensures { JudgesBy grammar.entry.bytes.now capture.now result (lent image.old notes.old work.old)
        (lent image.new notes.new work.new) }
{
    let plan = plan_of(grammar);
    check_lent(plan, capture, image.len(), notes.len(), work.len())?;
    Ok(build_and_judge(plan, capture, image, notes, work))
}
