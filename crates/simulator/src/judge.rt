// The call `judge`: checks, then the chain of steps from the start state, over exactly as many cells as there are configurations.
ghost use Rattle.std.specs.Prelude.{◌≡◌, ◌≤◌};
ghost use Rattle.image.specs.Format.{max_capture};
ghost use Rattle.image.specs.Refusals.{image_refusal, capture_refusal};
ghost use Rattle.chain.specs.Chain.{start_in, environment_by};
ghost use Rattle.refusal.specs.Checking.{checked};
ghost use Rattle.simulator.specs.Calls.{cells_needed, needs, short_refusal, JudgementRight, JudgeSays};
ghost use Rattle.simulator.specs.Code.Checked.{FewEnough, Checked, Cleared, Sized};

use crate::Judgement;
use chain::numbers::reciprocals_of;
use chain::step::step;
use chain::{Environment, JudgeState, Mode, Registers};
use image::format::{STATES_OFFSET, SYMBOLS_OFFSET};
use image::{Sizes, lookup};
use machine::Config;
use refusal::{Kind, Refusal};
use validator::check::{check_capture, check_image, check_length};

// The start state, from the image's counts and finals and the capture's length, with what no step is to work out again.
#[tactic(auto, using(crate::proofs::Starting::stride_fits, crate::proofs::Starting::both_some))]
pub fn start(sizes: Sizes, finals: u32) -> JudgeState
    requires { FewEnough sizes }
    ensures { result ≡ start_in (environment_by sizes finals) }
{
    let stride = sizes.places * sizes.symbols;
    JudgeState {
        environment: Environment {
            sizes,
            finals,
            stride,
            reciprocals: reciprocals_of(sizes.symbols, stride),
        },
        registers: Registers {
            mode: Mode::Look,
            at: Config::default(),
            number: 0,
            pushed: true,
            depth: 0,
            readings: 0,
        },
    }
}

// The chain: steps until the verdict stands.
// kept: notes and work are two parameters, as C lends them (sejimakpu_judge): the chain's step writes single cells of either, and would take a struct of them apart in each function.
fn run(image: &[u8], capture: &[u8], notes: &mut [u32], work: &mut [u32]) -> Judgement
    requires { Cleared image.now capture.now notes.old work.old }
    ensures { JudgementRight image.now capture.now result notes.new work.new }
{
    let first = start(lookup::sizes_of(image, capture), lookup::finals_of(image));
    let mut r = first.registers;
    loop {
        if let Mode::Done(verdict) = r.mode {
            return Judgement {
                verdict,
                readings: r.readings,
                end: r.at,
            };
        }
        r = step(image, capture, first.environment, r, notes, work);
    }
}

// Judging of checked input, lent exactly as many cells as there are configurations.
pub fn judge_checked(image: &[u8], capture: &[u8], notes: &mut [u32], work: &mut [u32]) -> Judgement
    requires { Checked image.now capture.now notes.old work.old }
    ensures { JudgementRight image.now capture.now result notes.new work.new }
{
    notes.fill(0);
    work.fill(0);
    run(image, capture, notes, work)
}

// N, the count of configurations with a capture of n bytes.
#[tactic(auto, using(crate::proofs::Needing::counting), unfolding(crate::specs::Calls::cells_needed, image::specs::Image::states, image::specs::Image::symbols))]
fn cells_needed(image: &[u8], n: usize) -> usize
    requires { ((image_refusal image.now).number ≡ 0) × (n ≤ max_capture) }
    ensures { result ≡ cells_needed image.now n }
{
    let states = usize::from(image[STATES_OFFSET]);
    let symbols = usize::from(image[SYMBOLS_OFFSET]);
    let places = n + 2;
    states * places * symbols
}

// How many cells the judging of a capture of n bytes needs, or the first refusal of 1 to 7.
#[tactic(auto, using(crate::proofs::Needing::needs_none, crate::proofs::Needing::needs_cells, image::proofs::CaptureRefused::capture_fine, refusal::proofs::Checked::in_turn))]
pub fn cells(image: &[u8], n: usize) -> Result<usize, Refusal>
    ensures { result ≡ needs (capture_refusal image.now n) (cells_needed image.now n) }
{
    check_capture(image, n)?;
    Ok(cells_needed(image, n))
}

// Refusals 8 and 9, where so many cells are needed.
#[tactic(auto, unfolding(crate::specs::Calls::short_refusal, refusal::specs::First::or_else, refusal::specs::First::refuse_if, refusal::specs::Checking::checked))]
pub fn check_cells(needed: usize, notes: usize, work: usize) -> Result<(), Refusal>
    ensures { result ≡ checked (short_refusal needed notes work) }
{
    if notes < needed {
        return Err(Refusal::new(Kind::NotesShort, needed));
    }
    if work < needed {
        return Err(Refusal::new(Kind::WorkShort, needed));
    }
    Ok(())
}

// Judging of checked input that needs so many cells: the lent ones are checked.
fn judge_sized(
    image: &[u8],
    capture: &[u8],
    cells: usize,
    notes: &mut [u32],
    work: &mut [u32],
) -> Result<Judgement, Refusal>
    requires { Sized image.now capture.now cells }
    ensures { JudgeSays image.now capture.now result
        notes.old notes.new work.old work.new }
{
    check_cells(cells, notes.len(), work.len())?;
    Ok(judge_checked(image, capture, &mut notes[..cells], &mut work[..cells]))
}

// Judges a capture by an image that is not refused: 7 to 9 are left to check.
// kept: a good image is asked for in three clauses: a type for it would be made in judge and in judge_bundle alone, and taken apart at once for the lookup, which takes bytes.
#[tactic(auto, using(crate::proofs::JudgeRefusals::long_says, crate::proofs::JudgeRefusals::length_short, crate::proofs::JudgeRefusals::sized))]
pub fn judge_by_checked(
    image: &[u8],
    capture: &[u8],
    notes: &mut [u32],
    work: &mut [u32],
) -> Result<Judgement, Refusal>
    requires { (image_refusal image.now).number ≡ 0 }
    ensures { JudgeSays image.now capture.now result
        notes.old notes.new work.old work.new }
{
    let long = capture.len();
    check_length(long)?;
    judge_sized(image, capture, cells_needed(image, long), notes, work)
}

// Judges a capture by an image: verdict, readings and end configuration, with the notes of every configuration in the lent cells, or a refusal.
#[tactic(auto, using(crate::proofs::JudgeRefusals::image_says, refusal::proofs::Checked::in_turn))]
pub fn judge(
    image: &[u8],
    capture: &[u8],
    notes: &mut [u32],
    work: &mut [u32],
) -> Result<Judgement, Refusal>
    ensures { JudgeSays image.now capture.now result
        notes.old notes.new work.old work.new }
{
    check_image(image)?;
    judge_by_checked(image, capture, notes, work)
}
