// The plain run: the step-by-step run itself, on a stack of lent cells and within a budget of steps.
#![tactic(auto)]

pub mod replies;
pub mod step;

ghost use Rattle.std.specs.Prelude.{◌≡◌, length, replicate};
ghost use Rattle.refusal.specs.Checking.{checked};
ghost use Rattle.interpreter.specs.Calls.{run_refusal, RunSays};
ghost use Rattle.interpreter.specs.Code.Stepping.{RunReady, RunAnswers};

use crate::step::{Run, RunState};
use image::lookup::{finals_of, sizes_of};
use machine::{Config, Termination};
use refusal::{Kind, Refusal};
use std::ops::ControlFlow;
use validator::check::check_capture;

// How a plain run is left: it terminates, its budget is spent, or the cells are too few for the next push.
#[derive(Clone, Copy)]
pub enum Exit {
    Terminated(Termination),
    Spent,
    Deep,
}

// What a plain run answers: how it is left, the steps taken, the configuration reached.
#[derive(Clone, Copy)]
pub struct RunEnd {
    pub exit: Exit,
    pub steps: u32,
    pub reached: Config,
}

// The whole run, step by step.
#[tactic(auto, using(crate::proofs::MachineLaws::image_long))]
fn run(image: &[u8], capture: &[u8], budget: u32, stack: &mut [u32]) -> RunEnd
    requires { RunReady image.now capture.now stack.old }
    ensures { RunAnswers image.now capture.now budget (length stack.old) result }
{
    let run = Run {
        image,
        capture,
        sizes: sizes_of(image, capture),
        finals: finals_of(image),
        budget,
    };
    let mut here = RunState::START;
    loop {
        match run.step(here, stack) {
            ControlFlow::Continue(next) => here = next,
            ControlFlow::Break((exit, steps)) => {
                return RunEnd {
                    exit,
                    steps,
                    reached: here.at,
                };
            }
        }
    }
}

// Refusals 1 to 7 and 10.
#[tactic(auto, using(refusal::proofs::Checked::in_turn), unfolding(crate::specs::Calls::run_refusal, refusal::specs::First::refuse_if, refusal::specs::Checking::checked))]
fn check_run(image: &[u8], capture: &[u8], cells: usize) -> Result<(), Refusal>
    ensures { result ≡ checked (run_refusal image.now capture.now cells) }
{
    check_capture(image, capture.len())?;
    if cells == 0 {
        return Err(Refusal::new(Kind::NoStack, 0));
    }
    Ok(())
}

// Every cell becomes 0.
fn clear(stack: &mut [u32])
    ensures { stack.new ≡ replicate (length stack.old) 0 }
{
    stack.fill(0);
}

// THE PLAIN RUN of an image on a capture, within a budget of steps, on lent stack cells.
pub fn plain_run(
    image: &[u8],
    capture: &[u8],
    budget: u32,
    stack: &mut [u32],
) -> Result<RunEnd, Refusal>
    ensures { RunSays image.now capture.now budget result stack.old stack.new }
{
    check_run(image, capture, stack.len())?;
    let end = run(image, capture, budget, stack);
    clear(stack);
    Ok(end)
}
