// A pop and what resumes after it: the terminator is known, and the newest open configuration goes on with its state and head.
ghost use Rattle.std.specs.Prelude.{◌≡◌};
ghost use Rattle.chain.specs.Step;
ghost use Rattle.chain.specs.Code.StepParts.{PopReady, Resumable};

use crate::cells::symbol_told;
use crate::numbers::{in_row, row_of};
use crate::{Environment, Mode, Registers};
use image::lookup;
use machine::{Action, Config, Termination, Verdict};

// The same registers, part by part.
// kept: with r itself in its place the compiler makes one jump for all modes, and judging takes up to half more time (docs/DECISIONS.md, 91).
pub fn unmoved(r: Registers) -> Registers
    ensures { result ≡ r }
{
    Registers {
        mode: r.mode,
        at: r.at,
        number: r.number,
        pushed: r.pushed,
        depth: r.depth,
        readings: r.readings,
    }
}

// The terminator r.at popped an entry: the newest open configuration, whose symbol its note tells, resumes with this state and head; with none open the run is over.
pub fn after_pop(
    e: Environment,
    r: Registers,
    row: u32,
    state: u32,
    head: u32,
    notes: &[u32],
    work: &[u32],
) -> Registers
    requires { PopReady e r.at r.number row state head r.depth notes.now work.now }
    ensures { result ≡ Step.after_pop e r.at state head r.depth r.readings work.now }
{
    if r.depth == 0 {
        let accepting = lookup::accepts(e.finals, e.sizes.places, state, head);
        let verdict = Verdict::from(Termination::Over { accepting });
        return Registers {
            mode: Mode::Done(verdict),
            pushed: false,
            ..r
        };
    }
    let i = work[r.depth - 1] as usize;
    let symbol = symbol_told(notes[i]);
    Registers {
        mode: Mode::Look,
        at: Config {
            state,
            head,
            symbol,
        },
        number: in_row(e, row, state, symbol),
        pushed: false,
        ..r
    }
}

// What the terminator d's rule makes of the registers, of an entry with this pointer: a terminator's rule is a pop.
// A return has its own arm: chosen by a value and not by a branch, the head would wait for the rule.
// kept: r and the terminator's parts are parameters, since r itself answers for a rule that is no pop (Step.resumed).
#[tactic(auto, unfolding(crate::specs::Step::resumed))]
pub fn resumed(
    e: Environment,
    r: Registers,
    d: Config,
    number: u32,
    action: Action,
    pointer: u32,
    depth: usize,
    notes: &[u32],
    work: &[u32],
) -> Registers
    requires { Resumable e d number action pointer depth notes.now work.now }
    ensures { result ≡ Step.resumed e r d action pointer depth work.now }
{
    match action {
        Action::Stop(_) | Action::Change(_) | Action::Push(_) => unmoved(r),
        Action::Pop { state, returns } => {
            let from = Registers {
                at: d,
                number,
                depth,
                ..r
            };
            if returns {
                let row = pointer * e.sizes.symbols;
                return after_pop(e, from, row, state, pointer, notes, work);
            }
            let row = row_of(e, number, d);
            after_pop(e, from, row, state, d.head, notes, work)
        }
    }
}
