// The judge's own steps: its state, and one step. What the chain of steps comes to is defined in specs/ and proved in proofs/.
#![tactic(auto)]

pub mod cells;
pub mod numbers;
pub mod resuming;
pub mod step;

use image::Sizes;
use machine::{Config, Verdict};

// kept: a step is chosen by the mode and by no closure, since the definition of a step (Step.judge_step) and the theorems of the chain go by it.
// What the next step does: look at a configuration, close open ones with a known terminator, clear the open ones after a run that has no end or is stuck, nothing.
#[derive(Clone, Copy)]
pub enum Mode {
    Look,
    Unwind,
    Clear(Verdict),
    Done(Verdict),
}

// One over the symbol count and one over the stride, each times a power of two and rounded up: by these a product divides.
#[derive(Clone, Copy)]
pub struct Reciprocals {
    pub symbols: u64,
    pub stride: u64,
}

// What stays: read once, of the image its counts and finals, of the capture its length. `stride`: how many configurations one state has.
#[derive(Clone, Copy)]
pub struct Environment {
    pub sizes: Sizes,
    pub finals: u32,
    pub stride: u32,
    pub reciprocals: Reciprocals,
}

// kept: no heap, so the open ones are lent cells with their count, depth, beside them, and no Vec.
// What a step moves. `at` is the configuration looked at; while unwinding, the terminator; then the end configuration. `number`: its number.
// `pushed`: the entry on top was pushed on the way to `at`. `depth`: how many configurations are open, which the work cells name.
#[derive(Clone, Copy)]
pub struct Registers {
    pub mode: Mode,
    pub at: Config,
    pub number: u32,
    pub pushed: bool,
    pub depth: usize,
    pub readings: u32,
}

// The judge's state, which document 02 calls its record.
#[derive(Clone, Copy)]
pub struct JudgeState {
    pub environment: Environment,
    pub registers: Registers,
}
