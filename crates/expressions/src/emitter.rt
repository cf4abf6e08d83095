// The rules of a grammar, made one by one: a rule's four bytes, the next helper rule, and an expression's own rule.
ghost use Rattle.std.specs.Prelude.{◌≡◌, ◌∷◌, [], ◌+◌, ◌<◌, ◌≤◌, OnOk, OnErr, IfErr};
ghost use Rattle.grammar.specs.Grammar.{max_rules};
ghost use Rattle.syntax.specs.Compile.{rule_bytes, repetition_rules, own_rules, own_number, owed};
ghost use Rattle.expressions.specs.Code.Building.{advanced, placed_at};

use crate::{Rules, Unfit};
use grammar::check::RULE_BYTES;
use grammar::{Expression, RuleKind};
use syntax::Node;

// A rule's four bytes: its kind, b, c and 0.
#[tactic(auto, unfolding(syntax::specs::Compile::rule_bytes))]
fn bytes_of(x: Expression) -> [u8; 4]
    ensures { result ≡ rule_bytes x }
{
    match x {
        Expression::Sequence(b, c) => [RuleKind::Sequence as u8, b, c, 0],
        Expression::Choice(b, c) => [RuleKind::Choice as u8, b, c, 0],
        Expression::Not(b) => [RuleKind::Not as u8, b, 0, 0],
        Expression::Empty => [RuleKind::Empty as u8, 0, 0, 0],
        Expression::Range(b, c) => [RuleKind::Range as u8, b, c, 0],
    }
}

impl Rules {
    // A rule written at a number.
    #[tactic(auto, using(crate::proofs::Emitting::rule_placed))]
    pub fn put(&mut self, k: usize, x: Expression)
        requires { k < max_rules }
        ensures { self.new ≡ placed_at self.old k x }
    {
        let at = RULE_BYTES * k;
        self.bytes[at..at + RULE_BYTES].copy_from_slice(&bytes_of(x));
    }

    // One helper rule more.
    #[tactic(auto, using(crate::proofs::Emitting::one_added))]
    pub fn add(&mut self, x: Expression)
        requires { self.old.next < max_rules }
        ensures { self.new ≡ advanced self.old (x ∷ []) 0 }
    {
        self.put(self.next, x);
        self.next += 1;
    }

    // The three rules of e*, A ← eA / ε.
    #[tactic(auto, using(crate::proofs::Emitting::three_added))]
    pub fn repeat(&mut self, operand: u8)
        requires { self.old.next + 3 ≤ max_rules }
        ensures { self.new ≡ advanced self.old (repetition_rules operand self.old.next) 0 }
    {
        let number = self.next as u8;
        self.add(Expression::Choice(number + 1, number + 2));
        self.add(Expression::Sequence(operand, number));
        self.add(Expression::Empty);
    }

    // An expression gets its own rule, and so its number.
    #[tactic(auto, using(crate::proofs::Emitting::advanced_none), unfolding(syntax::specs::Compile::own_rules, syntax::specs::Compile::own_number, syntax::specs::Compile::owed))]
    pub fn number(&mut self, node: Node) -> u8
        requires { self.old.next + owed node ≤ max_rules }
        ensures own { result ≡ own_number node self.old.next }
        ensures made { self.new ≡ advanced self.old (own_rules node self.old.next) 0 }
    {
        let number = self.next as u8;
        match node {
            Node::Numbered(k) => return k,
            Node::Operator(x) => self.add(x),
            Node::Repetition(i) => self.repeat(i),
        }
        number
    }

    // So many taken from the rules that are left, if there are as many.
    #[tactic(auto, using(crate::proofs::Emitting::fewer_left))]
    pub fn take(&mut self, count: usize, at: usize) -> Result<(), Unfit>
        ensures ok { OnOk result ((count ≤ self.old.left) × (self.new ≡ advanced self.old [] count)) }
        ensures err { OnErr result ((self.old.left < count) × (self.new ≡ self.old)) }
        ensures place { IfErr result (λ e. e.at ≡ at) }
    {
        if self.left < count {
            return Err(Unfit { at });
        }
        self.left -= count;
        Ok(())
    }
}
