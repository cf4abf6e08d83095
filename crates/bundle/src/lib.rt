// A shift's captures in one bundle: its format and check (18), each capture as a part of it, and all of them judged by one image.
#![tactic(auto)]

ghost use Rattle.std.specs.Prelude.{◌≡◌};

pub mod format;
pub mod judging;
pub mod report;

use machine::Verdict;
use refusal::Refusal;
use simulator::Judgement;

// A report's last line: how many lines give each verdict, how many are refusals, and the sum of readings.
#[derive(Clone, Copy, Default)]
pub struct Totals {
    pub accepted: u64,
    pub ended: u64,
    pub stuck: u64,
    pub looping: u64,
    pub halted: u64,
    pub refused: u64,
    pub readings: u64,
}

impl Totals {
    ghost use Rattle.bundle.specs.Format.{max_captures};
    ghost use Rattle.bundle.specs.Code.Judging.{RoomAfter, with_line};

    // One line more.
    #[tactic(auto, unfolding(crate::specs::Report::gives, crate::specs::Report::is_refused, crate::specs::Report::line_readings, machine::specs::Replies::verdict_number))]
    pub fn add(&mut self, line: &Result<Judgement, Refusal>)
        requires { RoomAfter max_captures self.old }
        ensures { self.new ≡ with_line self.old line.now }
    {
        match line {
            Ok(judgement) => {
                self.readings += u64::from(judgement.readings);
                match judgement.verdict {
                    Verdict::Accepted => self.accepted += 1,
                    Verdict::Ended => self.ended += 1,
                    Verdict::Stuck => self.stuck += 1,
                    Verdict::Looping => self.looping += 1,
                    Verdict::Halted => self.halted += 1,
                }
            }
            Err(_) => self.refused += 1,
        }
    }
}

// What the call `judge_bundle` answers: how many lines there are, one a capture, and their totals.
#[derive(Clone, Copy)]
pub struct Lines {
    pub count: usize,
    pub totals: Totals,
}
