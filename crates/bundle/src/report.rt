// A report by numbers: a line written into the lent cells, and the count of lines.
ghost use Rattle.std.specs.Prelude.{◌≡◌, ◌+◌, ◌*◌, ◌<◌, ◌≤◌, length};
ghost use Rattle.codec.specs.Bytes.{written};
ghost use Rattle.machine.specs.Replies.{count_reply};
ghost use Rattle.bundle.specs.Format.{max_captures};
ghost use Rattle.bundle.specs.Report.{line_width, line_cells};

use crate::Lines;
use crate::format::MAX_CAPTURES;
use machine::Reply;
use machine::replies::Answer;

// A line's width in cells.
pub const LINE_WIDTH: usize = 7;

// The cells of as many lines as there are captures at most.
pub const LINES_CELLS: usize = LINE_WIDTH * MAX_CAPTURES;

// Line i, in its seven cells.
// kept: a reply's six cells stand here and in sejimakpu's write_reply: seven are copied at once, and of a number and six cells the copies would be two, with a proof that they are one.
pub fn put_line(lines: &mut [u64], i: usize, reply: Reply)
    requires { (i < max_captures) × (line_width * i + line_width ≤ length lines.old) }
    ensures { lines.new ≡ written lines.old (line_width * i) (line_cells reply) }
{
    let at = LINE_WIDTH * i;
    lines[at..at + LINE_WIDTH].copy_from_slice(&[
        u64::from(reply.refusal),
        reply.place as u64,
        u64::from(reply.verdict),
        reply.count as u64,
        u64::from(reply.end.state),
        u64::from(reply.end.head),
        u64::from(reply.end.symbol),
    ]);
}

// The lines are a count.
impl Answer for Lines {
    ghost told = { λ r. count_reply r.count };

    fn reply(self) -> Reply {
        self.count.reply()
    }
}
