// Sets of rules as numbers: bit k for rule k.
ghost use Rattle.std.specs.Prelude.{◌≡◌, ◌||◌, ◌&&◌, ℕ, ◌<◌, ◌≤◌, eqb};
ghost use Rattle.recursion.specs.Code.Sets.{member};

use std::marker::Model;

// A set of rules; clauses see the number.
// kept: three methods ask `k < 32` of a number that a loop, a part or a set gives; a type for it would be made in each call and taken apart at once.
#[derive(Clone, Copy, PartialEq, Eq)]
pub struct RuleSet {
    bits: u32,
}

impl Model for RuleSet {
    ghost use Rattle.std.specs.Prelude.{ℕ};

    ghost Value = { ℕ };

    ghost view = { λ s. s.bits };

    ghost inverse = { λ n. record { bits = n } };
}

impl RuleSet {
    pub fn empty() -> RuleSet
        ensures { result ≡ 0 }
    {
        RuleSet { bits: 0 }
    }

    pub fn is_empty(self) -> bool
        ensures { result ≡ eqb self 0 }
    {
        self.bits == 0
    }

    #[tactic(auto, unfolding(crate::specs::Code::Sets::member))]
    pub fn contains(self, k: u8) -> bool
        requires { k < 32 }
        ensures { result ≡ member self k }
    {
        (self.bits >> k) % 2 == 1
    }

    #[tactic(auto, using(crate::proofs::Members::single_members))]
    pub fn single(k: u8) -> RuleSet
        requires { k < 32 }
        ensures { (l : ℕ) → member result l ≡ eqb l k }
    {
        RuleSet { bits: 1 << k }
    }

    #[tactic(auto, using(crate::proofs::Members::union_laws))]
    pub fn union(self, other: RuleSet) -> RuleSet
        ensures { ((l : ℕ) → member result l ≡ (member self l || member other l)) × (self ≤ result) }
    {
        RuleSet {
            bits: self.bits | other.bits,
        }
    }

    // The set, with rule k in it too where it is to be added.
    pub fn added(self, k: u8, adds: bool) -> RuleSet
        requires { k < 32 }
        ensures { ((l : ℕ) → member result l ≡ (member self l || (adds && eqb l k))) × (self ≤ result) }
    {
        if adds {
            return self.union(RuleSet::single(k));
        }
        self
    }
}
