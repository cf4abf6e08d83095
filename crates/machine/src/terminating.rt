// The verdict of a run that terminates.
ghost use Rattle.std.specs.Prelude.{◌≡◌};
ghost use Rattle.machine.specs.Terminating.{stop_verdict, termination_verdict};

use crate::{Reason, Termination, Verdict};

// The verdict of a run that a rule stops.
impl From<Reason> for Verdict {
    ghost from_gives = { λ reason verdict. verdict ≡ stop_verdict reason };

    #[tactic(auto, unfolding(crate::specs::Terminating::stop_verdict))]
    fn from(reason: Reason) -> Verdict {
        match reason {
            Reason::Missing => Verdict::Stuck,
            Reason::Halting => Verdict::Halted,
        }
    }
}

// The verdict of a run by how it terminates.
impl From<Termination> for Verdict {
    ghost from_gives = { λ termination verdict. verdict ≡ termination_verdict termination };

    #[tactic(auto, unfolding(crate::specs::Terminating::termination_verdict))]
    fn from(termination: Termination) -> Verdict {
        match termination {
            Termination::Over { accepting: true } => Verdict::Accepted,
            Termination::Over { accepting: false } => Verdict::Ended,
            Termination::Stopped(reason) => reason.into(),
        }
    }
}
