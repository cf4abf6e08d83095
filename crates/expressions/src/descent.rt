// Reading an expression of a legal text: recursive descent by the levels of the grammar of texts. Each function takes the rules that it needs from those
// that are left, and answers that it does not fit where they are too few. So the remaining depth and the rules left bound how deep the calls go.
ghost use Rattle.std.specs.Prelude.{◌≡◌, ◌+◌, ◌≤◌, length};
ghost use Rattle.syntax.specs.Trees.{prefixes, operand};
ghost use Rattle.syntax.specs.Compile.{compile_leaf};
ghost use Rattle.scanner.specs.Code.Scanning.{Peeks};
ghost use Rattle.expressions.specs.Code.Operators.{read_of, part_of, PartRoom};
ghost use Rattle.expressions.specs.Code.Levels.{Room, NameRoom, leaf_made, name_made, Passes, LevelRead, SuffixesRead, level_of, inner_of, follows, rest_from, pair as pair_of};

use crate::lookahead::{Role, is_slash, peek, role_of, starts};
use crate::operators::{begun, operator, prefix_need, with_prefix, with_suffix};
use crate::{Level, Part, Rules, Unfit};
use grammar::Expression;
use scanner::Lexeme;
use scanner::names::line_of;
use syntax::{Leaf, Node};

// A leaf's rule.
#[tactic(auto, unfolding(syntax::specs::Compile::compile_leaf))]
fn leaf_rule(a: Leaf) -> Expression
    ensures { result ≡ compile_leaf a }
{
    match a {
        Leaf::AnyByte => Expression::Range(0, 255),
        Leaf::EmptyString => Expression::Empty,
        Leaf::Failure => Expression::Range(1, 0),
    }
}

// An operand that is one rule.
fn leaf(x: Expression, at: usize, rules: &mut Rules) -> Result<Part, Unfit>
    ensures { part_of result rules.new ≡ leaf_made x rules.old at }
{
    rules.take(1, at)?;
    Ok(operator(at, x))
}

// An operand that is a name.
fn named(text: &[u8], name: usize, long: usize, at: usize) -> Part
    requires { (name + long ≤ length text.now) × NameRoom text.now }
    ensures { (rules : Rules) → read_of result rules ≡ name_made text.now name long rules at }
{
    Part {
        at,
        node: Node::Numbered(line_of(text, &text[name..name + long]) as u8),
    }
}

// kept: PartRoom and Room are clauses, since they speak of rules that are lent and change with each call.
// The suffixes after an expression, as many as stand there.
fn suffixes(text: &[u8], x: Part, rules: &mut Rules) -> Result<Part, Unfit>
    requires { PartRoom (read_of x rules.old) }
    ensures { SuffixesRead text.now (read_of x rules.old) (part_of result rules.new) }
{
    let l = peek(text, x.at);
    let Role::Suffix(s) = role_of(l.token) else {
        return Ok(x);
    };
    let more = with_suffix(s, x, l.next, rules)?;
    suffixes(text, more, rules)
}

// The place after the lexeme at a place.
pub fn after(text: &[u8], at: usize) -> usize
    ensures { Passes text.now at result }
{
    peek(text, at).next
}

// An operand, of which the first lexeme is known: a name, a range, a leaf, or an expression in brackets.
#[cycle(descent)]
fn operand(
    text: &[u8],
    at: usize,
    l: Lexeme,
    depth: usize,
    rules: &mut Rules,
) -> Result<Part, Unfit>
    requires { Peeks text.now at l × Room text.now rules.old }
    ensures { LevelRead operand text.now at depth rules.old (part_of result rules.new) }
{
    match role_of(l.token) {
        Role::Name(long) => Ok(named(text, l.offset, long, l.next)),
        Role::Range(ends) => leaf(Expression::Range(ends.low, ends.high), l.next, rules),
        Role::Leaf(a) => leaf(leaf_rule(a), l.next, rules),
        Role::Opening => {
            if depth == 0 {
                return Err(Unfit { at });
            }
            let inner = expression(text, l.next, Level::Choices, depth - 1, rules)?;
            Ok(Part {
                at: after(text, inner.at),
                node: inner.node,
            })
        }
        _ => Err(Unfit { at }),
    }
}

// A part of a sequence: prefixes, an operand, suffixes.
#[cycle(descent)]
fn part(text: &[u8], at: usize, depth: usize, rules: &mut Rules) -> Result<Part, Unfit>
    requires { Room text.now rules.old }
    ensures { LevelRead prefixes text.now at depth rules.old (part_of result rules.new) }
{
    let l = peek(text, at);
    if let Role::Prefix(p) = role_of(l.token) {
        rules.take(prefix_need(p), at)?;
        let x = part(text, l.next, depth, rules)?;
        return Ok(with_prefix(p, x, rules));
    }
    let x = operand(text, at, l, depth, rules)?;
    suffixes(text, x, rules)
}

impl Level {
    // Whether another part follows.
    fn goes_on(self, role: Role) -> bool
        ensures { result ≡ follows self role }
    {
        match self {
            Level::Sequences => starts(role),
            Level::Choices => is_slash(role),
        }
    }

    // Where it begins: in a sequence at once, in a choice after the slash.
    fn rest_at(self, at: usize, next: usize) -> usize
        ensures { result ≡ rest_from self at next }
    {
        match self {
            Level::Sequences => at,
            Level::Choices => next,
        }
    }

    fn pair(self, first: u8, rest: u8) -> Expression
        ensures { result ≡ pair_of self first rest }
    {
        match self {
            Level::Sequences => Expression::Sequence(first, rest),
            Level::Choices => Expression::Choice(first, rest),
        }
    }
}

// What an expression at a level begins with: a choice with a sequence, a sequence with a part.
#[cycle(descent)]
fn first_part(
    text: &[u8],
    at: usize,
    level: Level,
    depth: usize,
    rules: &mut Rules,
) -> Result<Part, Unfit>
    requires { Room text.now rules.old }
    ensures { LevelRead (inner_of level) text.now at depth rules.old (part_of result rules.new) }
{
    match level {
        Level::Sequences => part(text, at, depth, rules),
        Level::Choices => expression(text, at, Level::Sequences, depth, rules),
    }
}

// An expression at a level. Sequences and choices go on to the right.
#[cycle(descent)]
pub fn expression(
    text: &[u8],
    at: usize,
    level: Level,
    depth: usize,
    rules: &mut Rules,
) -> Result<Part, Unfit>
    requires { Room text.now rules.old }
    ensures { LevelRead (level_of level) text.now at depth rules.old (part_of result rules.new) }
{
    let first = first_part(text, at, level, depth, rules)?;
    let l = peek(text, first.at);
    if !level.goes_on(role_of(l.token)) {
        return Ok(first);
    }
    let head = begun(first, rules)?;
    let from = level.rest_at(first.at, l.next);
    let rest = expression(text, from, level, depth, rules)?;
    let last = rules.number(rest.node);
    Ok(operator(rest.at, level.pair(head, last)))
}
