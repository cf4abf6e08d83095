// The check of a grammar: refusals 11 and 12, for every byte string of any length; and what a rule's bytes say.
ghost use Rattle.std.specs.Prelude.{◌≡◌, not, ◌&&◌, ◌||◌, ◌+◌, ◌*◌, ◌%◌, ◌/◌, ◌<◌, ◌≤◌, eqb, ltb, length};
ghost use Rattle.refusal.specs.Checking.{checked};
ghost use Rattle.grammar.specs.Grammar.{max_rules, rules, expression, expression_by, range_of, rule_right, grammar_rules_from, grammar_refusal};

use crate::kind::RuleKind;
use crate::{ByteRange, Expression};
use refusal::{Kind, Refusal};

// The bytes of a grammar rule: kind, b, c and 0.
pub const RULE_BYTES: usize = 4;

// The most bytes that a grammar has: those of 31 rules.
const MAX_LENGTH: usize = 124;

// Refusal 11: no rule, too many rules, or a part of a rule.
fn length_wrong(long: usize) -> bool
    ensures { result ≡ (eqb long 0 || (ltb (4 * max_rules) long || not (eqb (long % 4) 0))) }
{
    long == 0 || MAX_LENGTH < long || long % RULE_BYTES != 0
}

// Whether a rule's four bytes are right in a grammar of m rules.
#[tactic(auto, unfolding(crate::specs::Grammar::rule_right))]
fn right(m: u8, kind: u8, b: u8, c: u8, last: u8) -> bool
    ensures { result ≡ rule_right m kind b c last }
{
    let Ok(kind) = RuleKind::try_from(kind) else {
        return false;
    };
    last == 0
        && match kind {
            RuleKind::Sequence | RuleKind::Choice => b < m && c < m,
            RuleKind::Not => b < m && c == 0,
            RuleKind::Empty => b == 0 && c == 0,
            RuleKind::Range => true, // any two bytes: with b above c it matches nothing
        }
}

// Refusal 12: the first rule that is not right.
fn check_rules(grammar: &[u8]) -> Result<(), Refusal>
    requires { length grammar.now ≤ 4 * max_rules }
    ensures { result ≡ checked (grammar_rules_from (rules grammar.now) 0 grammar.now) }
{
    let count = grammar.len() / RULE_BYTES;
    let m = count as u8;
    for k in 0..count {
        let at = RULE_BYTES * k;
        if !right(
            m,
            grammar[at],
            grammar[at + 1],
            grammar[at + 2],
            grammar[at + 3],
        ) {
            return Err(Refusal::new(Kind::GrammarRule, at));
        }
    }
    Ok(())
}

// Whether a grammar is good, and else why not and where.
pub fn check_grammar(grammar: &[u8]) -> Result<(), Refusal>
    ensures { result ≡ checked (grammar_refusal grammar.now) }
{
    let long = grammar.len();
    if length_wrong(long) {
        return Err(Refusal::new(Kind::GrammarLength, long));
    }
    check_rules(grammar)
}

// What a rule's kind, b and c say. A kind that is none is refused before, and taken for a range here.
#[tactic(auto, unfolding(crate::specs::Grammar::expression_by))]
fn expression_by(kind: u8, b: u8, c: u8) -> Expression
    ensures { result ≡ expression_by kind b c }
{
    match RuleKind::try_from(kind) {
        Ok(RuleKind::Sequence) => Expression::Sequence(b, c),
        Ok(RuleKind::Choice) => Expression::Choice(b, c),
        Ok(RuleKind::Not) => Expression::Not(b),
        Ok(RuleKind::Empty) => Expression::Empty,
        Ok(RuleKind::Range) | Err(_) => Expression::Range(b, c),
    }
}

// What rule k is.
#[tactic(auto, unfolding(crate::specs::Grammar::rules, crate::specs::Grammar::expression, crate::specs::Grammar::kind_of, crate::specs::Grammar::b_of, crate::specs::Grammar::c_of))]
pub fn expression_of(grammar: &[u8], k: usize) -> Expression
    requires { k < rules grammar.now }
    ensures { result ≡ expression grammar.now k }
{
    let at = RULE_BYTES * k;
    expression_by(grammar[at], grammar[at + 1], grammar[at + 2])
}

// The bytes that a rule is a range of, if it is a range.
#[tactic(auto, unfolding(crate::specs::Grammar::range_of))]
pub fn range_of(e: Expression) -> Option<ByteRange>
    ensures { result ≡ range_of e }
{
    match e {
        Expression::Range(low, high) => Some(ByteRange { low, high }),
        _ => None,
    }
}
