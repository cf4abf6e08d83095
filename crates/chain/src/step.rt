// One step of the judge. No function here has a loop or calls itself, and a step reads at most one rule.
ghost use Rattle.std.specs.Prelude.{◌≡◌};
ghost use Rattle.image.specs.Image.{machine};
ghost use Rattle.chain.specs.declared.Mode.TheVariants.{Look, Unwind};
ghost use Rattle.chain.specs.Step;
ghost use Rattle.chain.specs.Code.Ready.{Ready, StepSays};
ghost use Rattle.chain.specs.Code.StepParts.{cleared_with, Openable, Poppable, FirstReady, Pops, Closable, Opens, FirstLooks, StepsBy, Lookable, Unwindable, Clearable, Clears};

use crate::cells::{OPEN_BIT, head_told, open_note};
use crate::numbers::{config_from, moved_number, row_of};
use crate::resuming::{after_pop, resumed, unmoved};
use crate::{Environment, Mode, Registers};
use image::lookup;
use machine::{Action, Config, Verdict};

// After the last open configuration is cleared the verdict stands.
fn cleared(r: Registers, verdict: Verdict, depth: usize) -> Registers
    ensures { result ≡ cleared_with r verdict depth }
{
    let mode = if depth == 0 {
        Mode::Done(verdict)
    } else {
        Mode::Clear(verdict)
    };
    Registers {
        mode,
        pushed: false,
        depth,
        ..r
    }
}

// kept: notes and work are two parameters here and in the functions below, as C lends them: each writes single cells of either, and the definition of a step has them apart.
// The configuration looked at is open now: its note says what unwinding needs, and its number stands on top of the stack. The next is c.
fn opened(
    r: Registers,
    mode: Mode,
    c: Config,
    number: u32,
    pushed: bool,
    notes: &mut [u32],
    work: &mut [u32],
) -> Registers
    requires { Openable r notes.old work.old }
    ensures { Opens r mode c number pushed result notes.old notes.new work.old work.new }
{
    notes[r.number as usize] = open_note(r.at, r.pushed);
    work[r.depth] = r.number;
    Registers {
        mode,
        at: c,
        number,
        pushed,
        depth: r.depth + 1,
        readings: r.readings + 1,
    }
}

// The configuration looked at pops: it is its own terminator. Where it was pushed, its head is the entry's pointer, so a return changes nothing.
fn popping(e: Environment, r: Registers, state: u32, notes: &mut [u32], work: &[u32]) -> Registers
    requires { Poppable e r state notes.old work.now }
    ensures { Pops e r result state notes.old notes.new work.now }
{
    let k = r.number;
    notes[k as usize] = k + 2;
    let readings = r.readings + 1;
    let read = Registers { readings, ..r };
    if r.pushed {
        let row = row_of(e, k, r.at);
        return after_pop(e, read, row, state, r.at.head, notes, work);
    }
    Registers {
        mode: Mode::Unwind,
        ..read
    }
}

// The configuration looked at is new: its rule says how to go on.
fn first_look(
    e: Environment,
    r: Registers,
    action: Action,
    notes: &mut [u32],
    work: &mut [u32],
) -> Registers
    requires { FirstReady e r action notes.old work.old }
    ensures { FirstLooks e r action result notes.old notes.new work.old work.new }
{
    let at = r.at;
    let k = r.number;
    let pushed = r.pushed;
    match action {
        Action::Stop(reason) => {
            let verdict = Verdict::from(reason);
            opened(r, Mode::Clear(verdict), at, k, pushed, notes, work)
        }
        Action::Change(c) => {
            let number = moved_number(e, k, at, c);
            opened(r, Mode::Look, c, number, false, notes, work)
        }
        Action::Push(c) => {
            let number = moved_number(e, k, at, c);
            opened(r, Mode::Look, c, number, true, notes, work)
        }
        Action::Pop { state, returns: _ } => popping(e, r, state, notes, work),
    }
}

// A configuration whose terminator d, with this number, is known: an entry that was pushed is popped, else the newest open configuration gets this terminator too.
fn closed(
    image: &[u8],
    capture: &[u8],
    e: Environment,
    r: Registers,
    d: Config,
    number: u32,
    notes: &[u32],
    work: &[u32],
) -> Registers
    requires { Closable image.now capture.now e r d number notes.now work.now }
    ensures { result ≡ Step.closed e r d ((machine image.now capture.now).action d) work.now }
{
    if r.pushed {
        let action = lookup::action_of(image, capture, e.sizes, d);
        return resumed(e, r, d, number, action, r.at.head, r.depth, notes, work);
    }
    Registers {
        mode: Mode::Unwind,
        at: d,
        number,
        ..r
    }
}

// Look at a configuration: new, open, or closed. One rule is read at most: its own where it is new, its terminator's where it is closed.
#[tactic(auto, using(crate::proofs::LookBy::note_open, crate::proofs::LookBy::look_open))]
fn look(
    image: &[u8],
    capture: &[u8],
    e: Environment,
    r: Registers,
    notes: &mut [u32],
    work: &mut [u32],
) -> Registers
    requires { Lookable image.now capture.now e r notes.old work.old }
    ensures { StepsBy Look image.now capture.now e r result
        notes.old notes.new work.old work.new }
{
    let cell = notes[r.number as usize];
    if cell == 0 {
        let action = lookup::action_of(image, capture, e.sizes, r.at);
        return first_look(e, r, action, notes, work);
    }
    // kept: the cell is tested, since decoded into machine::Note first judging takes 8 percent longer
    if cell >= OPEN_BIT {
        return Registers {
            mode: Mode::Clear(Verdict::Looping),
            ..r
        };
    }
    let number = cell - 2;
    let d = config_from(e, number);
    closed(image, capture, e, r, d, number, notes, work)
}

// Unwind: the newest open configuration gets its terminator, whose number is at hand; its note tells how it was entered and with which head. One rule is read at most, the terminator's.
fn unwind(
    image: &[u8],
    capture: &[u8],
    e: Environment,
    r: Registers,
    notes: &mut [u32],
    work: &mut [u32],
) -> Registers
    requires { Unwindable image.now capture.now e r notes.old work.old }
    ensures { StepsBy Unwind image.now capture.now e r result
        notes.old notes.new work.old work.new }
{
    let at = r.at;
    let number = r.number;
    let depth = r.depth - 1;
    let i = work[depth] as usize;
    let told = notes[i];
    let note = number + 2;
    notes[i] = note;
    work[depth] = 0;
    let odd = told % 2;
    if odd == 0 {
        return Registers {
            mode: Mode::Unwind,
            pushed: false,
            depth,
            ..r
        };
    }
    let action = lookup::action_of(image, capture, e.sizes, at);
    let pointer = head_told(told);
    resumed(e, r, at, number, action, pointer, depth, notes, work)
}

// Clear: the newest open configuration has no terminator, and its note says no more than that.
fn clear(r: Registers, verdict: Verdict, notes: &mut [u32], work: &mut [u32]) -> Registers
    requires { Clearable r notes.old work.old }
    ensures { Clears r result verdict notes.old notes.new work.old work.new }
{
    let depth = r.depth - 1;
    let i = work[depth] as usize;
    notes[i] = 1;
    work[depth] = 0;
    cleared(r, verdict, depth)
}

// One step of the judge in its environment, which stays: no loop, no recursion, at most one rule read.
pub fn step(
    image: &[u8],
    capture: &[u8],
    e: Environment,
    r: Registers,
    notes: &mut [u32],
    work: &mut [u32],
) -> Registers
    requires { Ready image.now capture.now e r notes.old work.old }
    ensures { StepSays image.now capture.now e r result
        notes.old notes.new work.old work.new }
{
    match r.mode {
        Mode::Look => look(image, capture, e, r, notes, work),
        Mode::Unwind => unwind(image, capture, e, r, notes, work),
        Mode::Clear(verdict) => clear(r, verdict, notes, work),
        Mode::Done(_) => unmoved(r),
    }
}
