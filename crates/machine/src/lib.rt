// Machines: configurations, what a rule does, why and how a run terminates, verdicts and notes. Nothing here sees a byte.
#![tactic(auto)]

pub mod notes;
pub mod replies;
pub mod terminating;

// A surface configuration: state p, head i, top symbol A. The default is where a run starts, all three 0.
#[derive(Clone, Copy, Debug, PartialEq, Eq, Default)]
pub struct Config {
    pub state: u32,
    pub head: u32,
    pub symbol: u32,
}

// Why a rule stops a run: there is none, or it is a halting one, paper 000's halt.
#[derive(Clone, Copy, Debug, PartialEq, Eq)]
pub enum Reason {
    Missing,
    Halting,
}

// What a configuration's rule does. A change and a push name the configuration that they lead to.
#[derive(Clone, Copy, Debug, PartialEq, Eq)]
pub enum Action {
    Stop(Reason),
    Change(Config),
    Push(Config),
    Pop { state: u32, returns: bool },
}

// How a run terminates: its last entry is popped, or a rule stops it.
#[derive(Clone, Copy, Debug, PartialEq, Eq)]
pub enum Termination {
    Over { accepting: bool },
    Stopped(Reason),
}

// How a run ends.
#[derive(Clone, Copy, Debug, PartialEq, Eq)]
pub enum Verdict {
    Accepted,
    Ended,
    Stuck,
    Looping,
    Halted,
}

// What a note's cell says of its configuration: never looked at, looked at and without a known terminator, or closed with its terminator's number.
#[derive(Clone, Copy, Debug, PartialEq, Eq)]
pub enum Note {
    Unseen,
    Open,
    Closed(u32),
}

// kept: numbers with 0 for none, as the C interface gives them.
// Any call's answer by numbers: the refusal's number, or 0, with its place; the verdict's number, or 0 for none; a count and a configuration.
// Which number and values each case of an enum has is defined beside that enum, in specs/Replies.antt of its crate.
#[derive(Clone, Copy, Debug, PartialEq, Eq, Default)]
pub struct Reply {
    pub refusal: u32,
    pub place: usize,
    pub verdict: u32,
    pub count: usize,
    pub end: Config,
}
