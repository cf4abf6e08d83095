// What the call `plain_run` answers, by numbers.
ghost use Rattle.std.specs.Prelude.{◌≡◌};
ghost use Rattle.machine.specs.Replies.{answer_reply};
ghost use Rattle.interpreter.specs.Replies.{exit_number};

use crate::{Exit, RunEnd};
use machine::replies::Answer;
use machine::{Reply, Verdict};

impl Exit {
    // An exit's number: the verdict's where the run terminates, and two more.
    #[tactic(auto, unfolding(crate::specs::Replies::exit_number))]
    pub fn number(self) -> u32
        ensures { result ≡ exit_number self }
    {
        match self {
            Exit::Terminated(termination) => Verdict::from(termination).number(),
            Exit::Spent => 5,
            Exit::Deep => 6,
        }
    }
}

// The steps taken are a count.
impl Answer for RunEnd {
    ghost told = { λ r. answer_reply (exit_number r.exit) r.steps r.reached };

    fn reply(self) -> Reply {
        Reply::answered(self.exit.number(), self.steps as usize, self.reached)
    }
}
