// Grammars that 11 and 12 do not refuse.
ghost use Rattle.std.specs.Prelude.{◌≡◌};
ghost use Rattle.grammar.specs.Grammar.{grammar_refusal};

use crate::Expression;
use crate::check::{RULE_BYTES, expression_of};

// kept: no Grammar::new, since a Result of a struct with a lifetime and a ghost field does not go through `?` here: who has bytes checks them first.
// The bytes of a grammar that is right, as check_grammar says: what needs one takes this.
#[derive(Clone, Copy)]
pub struct Grammar<'a> {
    pub bytes: &'a [u8],
    pub ghost right: { (grammar_refusal bytes.now).number ≡ 0 },
}

impl<'a> Grammar<'a> {
    ghost use Rattle.std.specs.Prelude.{◌≡◌, ◌<◌};
    ghost use Rattle.grammar.specs.Grammar.{rules, expression};

    // m, the count of rules.
    #[tactic(auto, unfolding(crate::specs::Grammar::rules))]
    pub fn count(self) -> usize
        ensures { result ≡ rules self.entry.bytes.now }
    {
        self.bytes.len() / RULE_BYTES
    }

    // What rule k is.
    pub fn expression(self, k: usize) -> Expression
        requires { k < rules self.bytes.now }
        ensures { result ≡ expression self.entry.bytes.now k }
    {
        expression_of(self.bytes, k)
    }
}
