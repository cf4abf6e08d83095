// An answer by numbers: a verdict's number, and the replies of refused and answered calls.
ghost use Rattle.std.specs.Prelude.{◌≡◌};
ghost use Rattle.machine.specs.Replies.{verdict_number, refusal_reply, answer_reply, count_reply, reply_by};
ghost use Rattle.refusal.specs.First.{refusal};

use crate::{Config, Reply, Verdict};
use refusal::Refusal;

impl Verdict {
    // A verdict's number.
    // kept: a match and no discriminants, which could not give two verdicts one number, as must-fail/bodies_1 and bodies_2 do to be refused.
    #[tactic(auto, unfolding(crate::specs::Replies::verdict_number))]
    pub fn number(self) -> u32
        ensures { result ≡ verdict_number self }
    {
        match self {
            Verdict::Accepted => 1,
            Verdict::Ended => 2,
            Verdict::Stuck => 3,
            Verdict::Looping => 4,
            Verdict::Halted => 7,
        }
    }
}

// What a call answers, and the reply that tells it.
pub trait Answer {
    ghost use Rattle.machine.specs.declared.Reply.{Reply};

    ghost told: { Self → Reply };

    fn reply(self) -> Reply
        ensures { result ≡ told self };
}

// Nothing is told but that the call was not refused.
impl Answer for () {
    ghost told = { λ _. count_reply 0 };

    fn reply(self) -> Reply {
        Reply::default()
    }
}

// A count alone.
impl Answer for usize {
    ghost told = { λ n. count_reply n };

    fn reply(self) -> Reply {
        Reply {
            count: self,
            ..Reply::default()
        }
    }
}

// A refused call.
impl Answer for Refusal {
    ghost told = { λ f. refusal_reply f };

    fn reply(self) -> Reply {
        Reply::refused(self.number(), self.place())
    }
}

// A call that was answered or failed.
impl<A: Answer, E: Answer> Answer for Result<A, E> {
    ghost told = { λ r. reply_by A.told E.told r };

    #[tactic(auto, unfolding(crate::specs::Replies::reply_by))]
    fn reply(self) -> Reply {
        match self {
            Ok(answer) => answer.reply(),
            Err(fault) => fault.reply(),
        }
    }
}

impl Reply {
    // The reply of a refused call, by any number.
    pub fn refused(number: u32, place: usize) -> Reply
        ensures { result ≡ refusal_reply (refusal number place) }
    {
        Reply {
            refusal: number,
            place,
            ..Reply::default()
        }
    }

    // The reply of a call that was answered.
    pub fn answered(verdict: u32, count: usize, end: Config) -> Reply
        ensures { result ≡ answer_reply verdict count end }
    {
        Reply {
            verdict,
            count,
            end,
            ..Reply::default()
        }
    }
}
