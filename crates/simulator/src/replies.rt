// What the call `judge` answers, by numbers.
ghost use Rattle.machine.specs.Replies.{verdict_number, answer_reply};

use crate::Judgement;
use machine::Reply;
use machine::replies::Answer;

// The readings are a count.
impl Answer for Judgement {
    ghost told = { λ j. answer_reply (verdict_number j.verdict) j.readings j.end };

    fn reply(self) -> Reply {
        Reply::answered(self.verdict.number(), self.readings as usize, self.end)
    }
}
