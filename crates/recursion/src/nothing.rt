// The rules that may match nothing, as a set.
ghost use Rattle.std.specs.Prelude.{◌≡◌, ◌<◌};
ghost use Rattle.grammar.specs.Grammar.{max_rules, rules, expression, PartsBelow};
ghost use Rattle.recursion.specs.Computed.{nothing_by, nothing_of as nothing_in};
ghost use Rattle.recursion.specs.Code.Sets.{member, IsSet, LookedAt, Sweepable, Swept};

use crate::sets::RuleSet;
use grammar::{Expression, Grammar};

// Whether an expression may match nothing, by the rules of which that is known.
#[tactic(auto, unfolding(crate::specs::Computed::nothing_by))]
fn matches_nothing(e: Expression, known: RuleSet) -> bool
    requires { PartsBelow max_rules e }
    ensures { result ≡ nothing_by (member known) e }
{
    match e {
        Expression::Sequence(b, c) => known.contains(b) && known.contains(c),
        Expression::Choice(b, c) => known.contains(b) || known.contains(c),
        Expression::Not(_) | Expression::Empty => true,
        Expression::Range(_, _) => false,
    }
}

// A rule looked at: it is added where it may match nothing, by the rules that are known.
fn looked_at(grammar: Grammar, k: usize, known: RuleSet) -> RuleSet
    requires { k < rules grammar.bytes.now }
    ensures { LookedAt (expression grammar.entry.bytes.now) k known result }
{
    let matches = matches_nothing(grammar.expression(k), known);
    known.added(k as u8, matches)
}

// kept: two sweeps, since one over an iterator would have to ask that it yields every rule once.
// Every rule, from the last to the first, each by what is known when its turn comes.
fn sweep_down(grammar: Grammar, known: RuleSet) -> RuleSet
    requires { Sweepable grammar.bytes.now known }
    ensures { Swept grammar.entry.bytes.now known result }
{
    let mut found = known;
    for k in (0..grammar.count()).rev() {
        found = looked_at(grammar, k, found);
    }
    found
}

// Every rule, from the first to the last.
fn sweep_up(grammar: Grammar, known: RuleSet) -> RuleSet
    requires { Sweepable grammar.bytes.now known }
    ensures { Swept grammar.entry.bytes.now known result }
{
    let mut found = known;
    for k in 0..grammar.count() {
        found = looked_at(grammar, k, found);
    }
    found
}

// The rules that may match nothing. A sweep that finds no more is the last. Parts may stand after what they are parts of, or before it: so sweeps go both ways in turns.
pub fn nothing_of(grammar: Grammar) -> RuleSet
    ensures { IsSet (rules grammar.entry.bytes.now) result (nothing_in grammar.entry.bytes.now) }
{
    let mut known = sweep_down(grammar, RuleSet::empty());
    loop {
        let found = sweep_up(grammar, known);
        if found == known {
            return found;
        }
        known = sweep_down(grammar, found);
        if known == found {
            return known;
        }
    }
}
