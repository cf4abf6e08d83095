// The rules that each rule leads on to: one set for each rule, and its transitive closure.
ghost use Rattle.std.specs.Prelude.{◌≡◌, ◌||◌, ◌&&◌, ℕ, ◌<◌, length};
ghost use Rattle.grammar.specs.Grammar.{max_rules, rules, expression, PartsBelow};
ghost use Rattle.recursion.specs.Computed.{leads_by, leads_on, nothing_of};
ghost use Rattle.recursion.specs.Code.Sets.{member, IsSet, AreSets, row_count, PassedThrough};

use crate::sets::RuleSet;
use grammar::{Expression, Grammar};

// The rows: one for each rule, and one to spare.
pub const ROWS: usize = 32;

// The rules that an expression leads to.
// kept: PartsBelow is a clause here, in matches_nothing and in builder's second_rule, since each caller has it of Grammar::expression and the expression is matched at once; a type between would say no more.
fn leads_to(e: Expression, nothing: RuleSet) -> RuleSet
    requires { PartsBelow max_rules e }
    ensures { (l : ℕ) → member result l ≡ leads_by (member nothing) e l }
{
    match e {
        Expression::Sequence(b, c) => {
            let second = nothing.contains(b);
            RuleSet::single(b).added(c, second)
        }
        Expression::Choice(b, c) => RuleSet::single(b).added(c, true),
        Expression::Not(b) => RuleSet::single(b),
        Expression::Empty | Expression::Range(_, _) => RuleSet::empty(),
    }
}

// The rules that each rule leads to.
fn rows_of(grammar: Grammar, nothing: RuleSet) -> [RuleSet; ROWS]
    ensures { AreSets (rules grammar.entry.bytes.now) result (λ k. leads_by (member nothing) (expression grammar.entry.bytes.now k)) × (length result ≡ row_count) }
{
    let mut rows = [RuleSet::empty(); ROWS];
    for k in 0..grammar.count() {
        rows[k] = leads_to(grammar.expression(k), nothing);
    }
    rows
}

// A row, and what rule n leads on to where the row has n.
fn passed(row: RuleSet, n: u8, onward: RuleSet) -> RuleSet
    requires { n < 32 }
    ensures { (l : ℕ) → member result l ≡ (member row l || (member row n && member onward l)) }
{
    if row.contains(n) {
        return row.union(onward);
    }
    row
}

// One rule more to pass through: what leads on to rule n leads on to all that n leads on to. Every row is gone through, whatever the count of rules: a loop of a fixed length takes several at once.
fn pass_through(rows: &mut [RuleSet; ROWS], n: usize)
    requires { (n < row_count) × (length rows.old ≡ row_count) }
    ensures { PassedThrough n rows.old rows.new }
{
    let onward = rows[n];
    if onward.is_empty() {
        return;
    }
    for row in rows.iter_mut() {
        *row = passed(*row, n as u8, onward);
    }
}

// The rules that each rule of a grammar leads on to, in one step or more.
pub fn closure_of(grammar: Grammar, nothing: RuleSet) -> [RuleSet; ROWS]
    requires { IsSet (rules grammar.bytes.now) nothing (nothing_of grammar.bytes.now) }
    ensures { AreSets (rules grammar.entry.bytes.now) result (leads_on grammar.entry.bytes.now) }
{
    let count = grammar.count();
    let mut rows = rows_of(grammar, nothing);
    for n in 0..count {
        pass_through(&mut rows, n);
    }
    rows
}
