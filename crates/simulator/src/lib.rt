// The judge: a simulator that memoises terminators, so that it reads each configuration once.
#![tactic(auto)]

pub mod judge;
pub mod replies;

use machine::{Config, Verdict};

// What judging comes to: the run's verdict, how many configurations it enters, and its end configuration.
#[derive(Clone, Copy)]
pub struct Judgement {
    pub verdict: Verdict,
    pub readings: u32,
    pub end: Config,
}
