// Operators over an expression that was read: prefixes, suffixes, and the first part of a sequence or choice.
ghost use Rattle.std.specs.Prelude.{◌≡◌, ◌+◌, ◌≤◌};
ghost use Rattle.grammar.specs.Grammar.{max_rules};
ghost use Rattle.syntax.specs.declared.Node.TheVariants.{Operator};
ghost use Rattle.syntax.specs.Needs.{prefix_need as need_of_prefix, suffix_need as need_of_suffix};
ghost use Rattle.expressions.specs.Code.Operators.{read_of, part_of, begun_with, PartRoom, PrefixRoom, prefix_made, suffix_made, suffix_done, begun_of};

use crate::{Part, Rules, Unfit};
use grammar::Expression;
use syntax::{Node, Prefix, Suffix};

// The rules that a prefix needs.
pub fn prefix_need(p: Prefix) -> usize
    ensures { result ≡ need_of_prefix p }
{
    match p {
        Prefix::NotPredicate => 1,
        Prefix::AndPredicate => 2,
    }
}

// The rules that a suffix needs.
fn suffix_need(s: Suffix) -> usize
    ensures { result ≡ need_of_suffix s }
{
    match s {
        Suffix::ZeroOrMore => 3,
        Suffix::OneOrMore => 4,
        Suffix::Optional => 2,
    }
}

// An expression that is one rule, read up to a place.
pub fn operator(at: usize, x: Expression) -> Part
    ensures { result ≡ record { at = at; node = Operator x } }
{
    Part {
        at,
        node: Node::Operator(x),
    }
}

// A prefix before an expression. Its rules are taken already.
pub fn with_prefix(p: Prefix, x: Part, rules: &mut Rules) -> Part
    requires { PrefixRoom p (read_of x rules.old) }
    ensures { read_of result rules.new ≡ prefix_made p (read_of x rules.old) }
{
    let number = rules.number(x.node);
    match p {
        Prefix::NotPredicate => operator(x.at, Expression::Not(number)),
        Prefix::AndPredicate => {
            let not = rules.next as u8;
            rules.add(Expression::Not(number));
            operator(x.at, Expression::Not(not))
        }
    }
}

// A suffix after an operand that has its number.
fn suffix_over(s: Suffix, number: u8, at: usize, rules: &mut Rules) -> Part
    requires { rules.old.next + need_of_suffix s ≤ max_rules + 1 }
    ensures { read_of result rules.new ≡ suffix_done s number rules.old at }
{
    match s {
        Suffix::ZeroOrMore => Part {
            at,
            node: Node::Repetition(number),
        },
        Suffix::OneOrMore => {
            let loops = rules.next as u8;
            rules.repeat(number);
            operator(at, Expression::Sequence(number, loops))
        }
        Suffix::Optional => {
            let empty = rules.next as u8;
            rules.add(Expression::Empty);
            operator(at, Expression::Choice(number, empty))
        }
    }
}

// A suffix after an expression, up to a place.
pub fn with_suffix(s: Suffix, x: Part, at: usize, rules: &mut Rules) -> Result<Part, Unfit>
    requires { PartRoom (read_of x rules.old) }
    ensures { part_of result rules.new ≡ suffix_made s (read_of x rules.old) at }
{
    rules.take(suffix_need(s), at)?;
    let number = rules.number(x.node);
    Ok(suffix_over(s, number, at, rules))
}

// The first part of a sequence or choice: it gets its number, and one rule is taken for the two parts.
pub fn begun(x: Part, rules: &mut Rules) -> Result<u8, Unfit>
    requires { PartRoom (read_of x rules.old) }
    ensures { begun_with result rules.new ≡ begun_of (read_of x rules.old) }
{
    rules.take(1, x.at)?;
    Ok(rules.number(x.node))
}
