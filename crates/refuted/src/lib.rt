// Claims that are near to a promise and wrong, each proved false by a closed example: so the promise says what its neighbour does not. Nothing stands on this crate.
#![tactic(auto)]

ghost use Rattle.refuted.specs.Refuted.{Refuted};

// Its contract is that every one of them is false: with one that has no refutation this crate is not proved.
pub fn all() -> bool
    ensures { Refuted }
{
    true
}
