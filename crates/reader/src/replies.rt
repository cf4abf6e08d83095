// What the call `read` answers, by numbers.
ghost use Rattle.machine.specs.Replies.{count_reply};

use crate::GrammarBytes;
use machine::Reply;
use machine::replies::Answer;

// The grammar's length is a count.
impl Answer for GrammarBytes {
    ghost told = { λ g. count_reply g.length };

    fn reply(self) -> Reply {
        self.length.reply()
    }
}
