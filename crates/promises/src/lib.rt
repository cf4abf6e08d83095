// The promises: specs/ has the claims, proofs/ one record with a proof of each. No other code stands on this crate.
#![tactic(auto)]

ghost use Rattle.promises.specs.Promises.{Promises};

// Its contract is that every claim holds: with a claim that has no proof this crate is not proved.
pub fn kept() -> bool
    ensures { Promises }
{
    true
}
