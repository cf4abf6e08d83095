// Why a typed grammar does not pass the check for left recursion, by numbers.
ghost use Rattle.typed.specs.Replies.{fault_reply};

use crate::left_recursion::RecursionFault;
use machine::Reply;
use machine::replies::Answer;
use refusal::{Kind, Refusal};

// A rule that leads back to itself: 19, the rule's number, and the offset of its line's name as a count.
impl Answer for RecursionFault {
    ghost told = { λ f. fault_reply f };

    #[tactic(auto, unfolding(crate::specs::Replies::fault_reply))]
    fn reply(self) -> Reply {
        match self {
            RecursionFault::Refused(refusal) => refusal.reply(),
            RecursionFault::Recursive { rule, name } => Reply {
                count: name,
                ..Refusal::new(Kind::LeftRecursion, rule).reply()
            },
        }
    }
}
