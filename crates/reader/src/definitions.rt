// Reading the lines of a legal text: each line's expression, its top rule at the line's own number, and the helper rules after those of the lines before.
ghost use Rattle.std.specs.Prelude.{◌≡◌, ◌<◌, ◌≤◌};
ghost use Rattle.grammar.specs.Grammar.{max_rules};
ghost use Rattle.expressions.specs.Code.Operators.{read_of, PartRoom};
ghost use Rattle.reader.specs.Code.Lines.{line_of, with_left, topped as topped_of, LineRoom, LineIsRead, LinesRoom, LinesRead};

use crate::cursor::body_at;
use crate::{Lines, MAX_RULES};
use expressions::descent::{after, expression};
use expressions::{Level, Part, Rules, Unfit};
use grammar::Expression;
use scanner::MAX_DEPTH;
use syntax::Node;

// The rules that a line may need: those that are left, and its own, which has its number already.
fn refill(rules: &mut Rules)
    requires { rules.old.next ≤ max_rules }
    ensures { rules.new ≡ with_left rules.old }
{
    rules.left = MAX_RULES + 1 - rules.next;
}

// A line's own rule at its number k, and the helper rules that it needs besides. A bare name is the named rule, then nothing.
fn topped(x: Part, k: usize, at: usize, rules: &mut Rules) -> Result<usize, Unfit>
    requires { (k < max_rules) × PartRoom (read_of x rules.old) }
    ensures { line_of result rules.new ≡ topped_of (read_of x rules.old) k at }
{
    let next = rules.next;
    let own = match x.node {
        Node::Numbered(i) => {
            if next >= MAX_RULES {
                return Err(Unfit { at });
            }
            rules.add(Expression::Empty);
            Expression::Sequence(i, next as u8)
        }
        Node::Operator(own) => own,
        Node::Repetition(i) => {
            rules.add(Expression::Sequence(i, k as u8));
            rules.add(Expression::Empty);
            Expression::Choice(next as u8, next as u8 + 1)
        }
    };
    rules.put(k, own);
    Ok(at)
}

// Line k, from its name on: the place after it.
fn line(text: &[u8], at: usize, k: usize, rules: &mut Rules) -> Result<usize, Unfit>
    requires { LineRoom text.now k rules.old }
    ensures { LineIsRead text.now at k rules.old (line_of result rules.new) }
{
    let body = body_at(text, at);
    refill(rules);
    let x = expression(text, body, Level::Choices, MAX_DEPTH, rules)?;
    let end = after(text, x.at);
    topped(x, k, end, rules)
}

// So many lines from a place on.
pub fn lines_at(text: &[u8], at: usize, lines: usize) -> Result<Lines, Unfit>
    requires { LinesRoom text.now lines }
    ensures { LinesRead text.now at lines result }
{
    let mut rules = Rules {
        bytes: [0; 124],
        next: lines,
        left: 0,
    };
    let mut ends = [0; 31];
    let mut place = at;
    for k in 0..lines {
        place = line(text, place, k, &mut rules)?;
        ends[k] = rules.next as u8;
    }
    Ok(Lines { rules, ends })
}
