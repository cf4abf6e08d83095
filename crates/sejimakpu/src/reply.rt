// The six cells that a reply is written to, and the ten of a report's totals.
ghost use Rattle.std.specs.Prelude.{◌≡◌};
ghost use Rattle.bundle.specs.Replies.{totals_left};
ghost use Rattle.sejimakpu.specs.Cells.{ReplyWritten};

use bundle::Lines;
use machine::Reply;
use refusal::Refusal;

// The ten cells of the totals: a verdict's at its number, then refusals and readings. A refused call writes none.
#[tactic(auto, unfolding(bundle::specs::Replies::totals_left, bundle::specs::Replies::totals_cells))]
pub fn write_totals(cells: &mut [u64; 10], report: &Result<Lines, Refusal>)
    ensures { cells.new ≡ totals_left report.now cells.old }
{
    if let Ok(Lines { totals: t, .. }) = report {
        *cells = [
            0, t.accepted, t.ended, t.stuck, t.looping, 0, 0, t.halted, t.refused, t.readings,
        ];
    }
}

// Every cell of the answer is written; the number of the refusal, or 0, is returned.
pub fn write_reply(answer: &mut [u64; 6], reply: Reply) -> u32
    ensures { ReplyWritten reply result answer.new }
{
    *answer = [
        reply.place as u64,
        u64::from(reply.verdict),
        reply.count as u64,
        u64::from(reply.end.state),
        u64::from(reply.end.head),
        u64::from(reply.end.symbol),
    ];
    reply.refusal
}
