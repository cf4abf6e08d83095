// The check for left recursion: refusals 11 and 12, then 19 with the lowest rule that leads back to itself.
ghost use Rattle.std.specs.Prelude.{◌≡◌, ◌≤◌};
ghost use Rattle.refusal.specs.Checking.{checked};
ghost use Rattle.grammar.specs.Grammar.{max_rules, rules};
ghost use Rattle.recursion.specs.Computed.{recursion_from, recursion_refusal};
ghost use Rattle.recursion.specs.Code.Sets.{lowest_from};

use crate::closure::{ROWS, closure_of};
use crate::nothing::nothing_of;
use crate::sets::RuleSet;
use grammar::Grammar;
use grammar::check::check_grammar;
use refusal::{Kind, Refusal};

// Refusal 19: the lowest of so many rules whose own bit its row has.
fn check_rows(rows: &[RuleSet; ROWS], count: usize) -> Result<(), Refusal>
    requires { count ≤ max_rules }
    ensures { result ≡ checked (lowest_from count 0 rows.now) }
{
    for k in 0..count {
        if rows[k].contains(k as u8) {
            return Err(Refusal::new(Kind::LeftRecursion, k));
        }
    }
    Ok(())
}

// Whether a rule of a grammar leads back to itself, and else the lowest one that does.
pub fn find_recursion(grammar: Grammar) -> Result<(), Refusal>
    ensures { result ≡ checked (recursion_from (rules grammar.entry.bytes.now) 0 grammar.entry.bytes.now) }
{
    let nothing = nothing_of(grammar);
    let rows = closure_of(grammar, nothing);
    check_rows(&rows, grammar.count())
}

// Whether a grammar is right and no rule of it leads back to itself, and else why not and where.
pub fn check_recursion(grammar: &[u8]) -> Result<(), Refusal>
    ensures { result ≡ checked (recursion_refusal grammar.now) }
{
    check_grammar(grammar)?;
    find_recursion(Grammar { bytes: grammar })
}
