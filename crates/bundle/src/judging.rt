// The call `judge_bundle`: image and bundle are checked, then the captures judged in order, each on the cells that the one before left.
ghost use Rattle.std.specs.Prelude.{◌≡◌, ◌*◌, ◌≤◌, length};
ghost use Rattle.image.specs.Refusals.{image_refusal};
ghost use Rattle.bundle.specs.Format.{count as count_of};
ghost use Rattle.bundle.specs.Report.{line_width};
ghost use Rattle.bundle.specs.Answers as answers;
ghost use Rattle.bundle.specs.Calls.{BundleJudged, BundleSays};

use crate::format::Bundle;
use crate::report::{LINES_CELLS, put_line};
use crate::{Lines, Totals};
use machine::replies::Answer;
use refusal::Refusal;
use simulator::judge::judge_by_checked;
use validator::check::check_image;

// The captures of a bundle in order, by an image that is checked.
#[tactic(auto, using(crate::proofs::SoFar::in_order, simulator::proofs::Replying::judged_told))]
fn judge_captures(
    image: &[u8],
    bundle: &Bundle,
    notes: &mut [u32],
    work: &mut [u32],
    lines: &mut [u64],
) -> Totals
    requires image { (image_refusal image.now).number ≡ 0 }
    requires room { line_width * count_of bundle.now ≤ length lines.old }
    ensures { BundleJudged image.now bundle.now (answers.lines (count_of bundle.now) result)
        lines.old lines.new notes.old notes.new work.old work.new }
{
    let mut totals = Totals::default();
    for i in 0..bundle.count() {
        let judged = judge_by_checked(image, bundle.capture(i), notes, work);
        put_line(lines, i, judged.reply());
        totals.add(&judged);
    }
    totals
}

// Judges the captures of a bundle by an image: a line for each in the lent lines, seven cells for each of 64, and their totals, or a refusal of the whole.
#[tactic(auto, using(crate::proofs::CallChecked::image_says, crate::proofs::CallChecked::bundle_says, crate::proofs::CallChecked::judged_says, refusal::proofs::Checked::in_turn))]
pub fn judge_bundle(
    image: &[u8],
    bundle: &[u8],
    notes: &mut [u32],
    work: &mut [u32],
    lines: &mut [u64; LINES_CELLS],
) -> Result<Lines, Refusal>
    ensures { BundleSays image.now bundle.now result
        lines.old lines.new notes.old notes.new work.old work.new }
{
    check_image(image)?;
    let bundle = Bundle::new(bundle)?;
    let totals = judge_captures(image, &bundle, notes, work, lines);
    Ok(Lines {
        count: bundle.count(),
        totals,
    })
}
