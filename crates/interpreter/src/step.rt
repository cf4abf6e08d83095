// One step of the plain run on the lent cells. The budget is asked once, before the step is taken.
ghost use Rattle.std.specs.Prelude.{◌≡◌};
ghost use Rattle.machine.specs.Terminating.{accepts_by};
ghost use Rattle.interpreter.specs.Code.Stepping.{spent_exit};

use crate::Exit;
use image::Sizes;
use image::lookup::{accepts, action_of, returned};
use machine::{Action, Config, Termination};
use std::ops::ControlFlow;

// A cell of the stack holds pointer * CELL_SYMBOLS + symbol.
const CELL_SYMBOLS: u32 = 128;

// kept: no heap, so the stack is lent cells with a count beside them, and no Vec.
// Where a run is: its configuration with the top symbol, the pointer of the top entry, how many entries lie below it, the steps taken.
#[derive(Clone, Copy)]
pub struct RunState {
    pub at: Config,
    pub pointer: u32,
    pub below: usize,
    pub steps: u32,
}

// What a run reads at each step: image and capture, what is read of them once, and the budget of steps.
#[derive(Clone, Copy)]
pub struct Run<'a> {
    pub image: &'a [u8],
    pub capture: &'a [u8],
    pub sizes: Sizes,
    pub finals: u32,
    pub budget: u32,
}

// With the budget spent: a rule that stops the run comes first.
#[tactic(auto, unfolding(crate::specs::Code::Stepping::spent_exit))]
fn spent_exit(action: Action) -> Exit
    ensures { result ≡ spent_exit action }
{
    match action {
        Action::Stop(reason) => Exit::Terminated(Termination::Stopped(reason)),
        Action::Change(_) | Action::Push(_) | Action::Pop { .. } => Exit::Spent,
    }
}

impl RunState {
    ghost use Rattle.interpreter.specs.Code.Stepping.{PushReady, PushSays};

    // Every run starts in state 0 on the left marker, with one entry on the stack.
    pub const START: RunState = RunState {
        at: Config {
            state: 0,
            head: 0,
            symbol: 0,
        },
        pointer: 0,
        below: 0,
        steps: 0,
    };

    // A push to c: the entry that was on top goes to its cell, and the new one's pointer is the head's place.
    #[tactic(auto, unfolding(crate::specs::Code::Stepping::push_result, crate::specs::Code::Stepping::cells_pushed, crate::specs::Code::Stepping::cell_of))]
    fn push(self, c: Config, stack: &mut [u32]) -> ControlFlow<(Exit, u32), RunState>
        requires { PushReady self stack.old }
        ensures { PushSays self c stack.old result stack.new }
    {
        if stack.len() < self.below + 2 {
            return ControlFlow::Break((Exit::Deep, self.steps));
        }
        stack[self.below] = self.pointer * CELL_SYMBOLS + self.at.symbol;
        ControlFlow::Continue(RunState {
            at: c,
            pointer: c.head,
            below: self.below + 1,
            steps: self.steps + 1,
        })
    }
}

impl<'a> Run<'a> {
    ghost use Rattle.interpreter.specs.Code.Stepping.{pop_result, TakeSays, PlainStepSays, PopReady, TakeReady, PlainStepReady};

    // A pop: the entry below comes back from its cell; with none below the run is over.
    #[tactic(auto, using(crate::proofs::CodeLaws::returned_below), unfolding(crate::specs::Code::Stepping::pop_result, crate::specs::Code::Stepping::popped_to))]
    fn pop(
        &self,
        state: u32,
        returns: bool,
        here: RunState,
        stack: &[u32],
    ) -> ControlFlow<(Exit, u32), RunState>
        requires { PopReady state here stack.now }
        ensures { result ≡ pop_result (accepts_by self.now.finals self.now.sizes.places) here stack.now state returns }
    {
        let steps = here.steps + 1;
        let head = returned(returns, here.pointer, here.at.head);
        if here.below == 0 {
            let accepting = accepts(self.finals, self.sizes.places, state, head);
            let exit = Exit::Terminated(Termination::Over { accepting });
            return ControlFlow::Break((exit, steps));
        }
        let below = here.below - 1;
        let cell = stack[below];
        ControlFlow::Continue(RunState {
            at: Config {
                state,
                head,
                symbol: cell % CELL_SYMBOLS,
            },
            pointer: cell / CELL_SYMBOLS,
            below,
            steps,
        })
    }

    // A step by its action, with some budget left. A changed entry keeps its pointer.
    #[tactic(auto, unfolding(crate::specs::Code::Stepping::take_result, crate::specs::Code::Stepping::cells_taken))]
    fn take(
        &self,
        action: Action,
        here: RunState,
        stack: &mut [u32],
    ) -> ControlFlow<(Exit, u32), RunState>
        requires { TakeReady action here stack.old }
        ensures { TakeSays (accepts_by self.now.finals self.now.sizes.places) here stack.old action result stack.new }
    {
        match action {
            Action::Stop(reason) => {
                let exit = Exit::Terminated(Termination::Stopped(reason));
                ControlFlow::Break((exit, here.steps))
            }
            Action::Change(c) => ControlFlow::Continue(RunState {
                at: c,
                steps: here.steps + 1,
                ..here
            }),
            Action::Push(c) => here.push(c, stack),
            Action::Pop { state, returns } => self.pop(state, returns, here, stack),
        }
    }

    // One step, or how the run is left where there is none.
    // Break has no configuration: with one the compiler keeps the state in memory, and a step takes 2.7 times as long.
    #[tactic(auto, using(crate::proofs::CodeLaws::accepts_as), unfolding(crate::specs::Code::Stepping::result_by, crate::specs::Code::Stepping::cells_by))]
    pub fn step(&self, here: RunState, stack: &mut [u32]) -> ControlFlow<(Exit, u32), RunState>
        requires { PlainStepReady self.now.image.now self.now.capture.now self.now.sizes self.now.finals self.now.budget here stack.old }
        ensures { PlainStepSays self.now.image.now self.now.capture.now self.now.budget here stack.old result stack.new }
    {
        if here.steps == self.budget {
            let action = action_of(self.image, self.capture, self.sizes, here.at);
            return ControlFlow::Break((spent_exit(action), here.steps));
        }
        let action = action_of(self.image, self.capture, self.sizes, here.at);
        self.take(action, here, stack)
    }
}
