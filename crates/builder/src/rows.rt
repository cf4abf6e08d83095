// The table: the rule of a grammar rule's first or second symbol in a state, and the rules of symbol 0.
ghost use Rattle.std.specs.Prelude.{◌≡◌, Bool, true, false, ◌&&◌, cond, ℕ, ◌+◌, ◌*◌, ◌<◌};
ghost use Rattle.grammar.specs.Grammar.{max_rules, PartsBelow};
ghost use Rattle.builder.specs.Table.{push_first, to_second, pass_byte, pop_fail, row, rows, by_state, unruled as unruled_of, select as select_of, on_byte as on_byte_of, row_zero};
ghost use Rattle.builder.specs.Code.Writing.{rule_of, Few, Picks};

use crate::{ImageRule, Matching, RulePair};
use grammar::Expression;
use image::format::{
    DIRECTION_RIGHT, DIRECTION_STAY, KIND_CHANGE, KIND_NONE, KIND_POP, KIND_PUSH, POP_RETURN,
    POP_STAY,
};

// The states of a built machine.
#[derive(Clone, Copy, Debug, PartialEq, Eq)]
pub enum State {
    Start,
    Work,
    Ok,
    Fail,
    Done,
}

pub const STATES: u8 = 5;

// The final ones: done alone, a bit for each state.
pub const FINALS: u32 = 16;

// The rules that do not depend on a grammar rule: none, and pops whose head stays or returns.
pub const NO_RULE: ImageRule = ImageRule {
    kind: KIND_NONE,
    state: 0,
    symbol: 0,
    direction: 0,
};

const POP_OK: ImageRule = ImageRule {
    kind: KIND_POP,
    state: State::Ok as u8,
    symbol: 0,
    direction: POP_STAY,
};

const POP_FAIL: ImageRule = ImageRule {
    kind: KIND_POP,
    state: State::Fail as u8,
    symbol: 0,
    direction: POP_STAY,
};

const BACK_OK: ImageRule = ImageRule {
    kind: KIND_POP,
    state: State::Ok as u8,
    symbol: 0,
    direction: POP_RETURN,
};

const BACK_FAIL: ImageRule = ImageRule {
    kind: KIND_POP,
    state: State::Fail as u8,
    symbol: 0,
    direction: POP_RETURN,
};

// A push of a rule's first symbol.
// kept: three functions ask `k < max_rules` of one number each; a type for the number would be made and taken apart in each.
fn push(k: u8) -> ImageRule
    requires { k < max_rules }
    ensures { rule_of result ≡ push_first k }
{
    ImageRule {
        kind: KIND_PUSH,
        state: State::Work as u8,
        symbol: 2 * k + 1,
        direction: DIRECTION_STAY,
    }
}

// A change to a rule's second symbol.
fn change(k: u8) -> ImageRule
    requires { k < max_rules }
    ensures { rule_of result ≡ to_second k }
{
    ImageRule {
        kind: KIND_CHANGE,
        state: State::Work as u8,
        symbol: 2 * k + 2,
        direction: DIRECTION_STAY,
    }
}

// A byte that is in the range is passed; any other, and a marker, fails.
fn one_byte(k: u8, inside: bool) -> ImageRule
    requires { k < max_rules }
    ensures { rule_of result ≡ cond inside (pass_byte k) pop_fail }
{
    if inside {
        ImageRule {
            kind: KIND_CHANGE,
            state: State::Ok as u8,
            symbol: 2 * k + 1,
            direction: DIRECTION_RIGHT,
        }
    } else {
        POP_FAIL
    }
}

// kept: a state is a number here and in the table's other functions, since these say of any number what the table says (specs/Table.antt), and the loop over the states gives numbers.
// Whether a grammar rule's symbols have no rule in a state: start and done.
#[tactic(auto, unfolding(crate::specs::Table::unruled))]
pub fn unruled(state: u32) -> bool
    ensures { result ≡ unruled_of state }
{
    state < State::Work as u32 || state > State::Fail as u32
}

// The rule of a state, of those for work, ok and fail.
#[tactic(auto, unfolding(crate::specs::Table::by_state))]
fn by_state(state: u32, work: ImageRule, ok: ImageRule, fail: ImageRule) -> ImageRule
    ensures { rule_of result ≡ by_state state (row (rule_of work) (rule_of ok) (rule_of fail)) }
{
    if state == State::Work as u32 {
        work
    } else if state == State::Ok as u32 {
        ok
    } else if state == State::Fail as u32 {
        fail
    } else {
        NO_RULE
    }
}

// The rule of rule k's first symbol in a state; inside says of a range whether the class is in it.
fn first_rule(e: Expression, k: u8, inside: bool, state: u32) -> ImageRule
    requires { Few k e }
    ensures { rule_of result ≡ select_of (rows e k inside) false state }
{
    match e {
        Expression::Sequence(b, _) => by_state(state, push(b), change(k), BACK_FAIL),
        Expression::Choice(b, _) => by_state(state, push(b), POP_OK, change(k)),
        Expression::Not(b) => by_state(state, push(b), BACK_FAIL, BACK_OK),
        Expression::Empty => by_state(state, POP_OK, NO_RULE, NO_RULE),
        Expression::Range(_, _) => by_state(state, one_byte(k, inside), POP_OK, NO_RULE),
    }
}

// The rule of a rule's second symbol in a state: neither the rule's number nor the class matters.
fn second_rule(e: Expression, state: u32) -> ImageRule
    requires { PartsBelow max_rules e }
    ensures { (k : ℕ) (inside : Bool) → rule_of result ≡ select_of (rows e k inside) true state }
{
    match e {
        Expression::Sequence(_, c) => by_state(state, push(c), POP_OK, BACK_FAIL), // back to before b
        Expression::Choice(_, c) => by_state(state, push(c), POP_OK, POP_FAIL),
        Expression::Not(_) | Expression::Empty | Expression::Range(_, _) => NO_RULE,
    }
}

// The rules of rule k's two symbols in a state. They are picked by value: to write all six to memory and read two back is slow.
pub fn pair_by(e: Expression, k: u8, inside: bool, state: u32) -> RulePair
    requires { Few k e }
    ensures { Picks (rows e k inside) state result }
{
    RulePair {
        first: first_rule(e, k, inside, state),
        second: second_rule(e, state),
    }
}

// Ok on a byte, with symbol 0: the one rule that the choice decides.
#[tactic(auto, unfolding(crate::specs::Table::on_byte))]
fn on_byte(matching: Matching) -> ImageRule
    ensures { rule_of result ≡ on_byte_of matching }
{
    match matching {
        Matching::Whole => NO_RULE,
        Matching::Leading => ImageRule {
            kind: KIND_CHANGE,
            state: State::Ok as u8,
            symbol: 0,
            direction: DIRECTION_RIGHT,
        },
    }
}

// The rows of symbol 0: start on the left marker, ok on the right one, and ok on a byte.
#[tactic(auto, unfolding(crate::specs::Table::row_zero))]
pub fn row_zero(classes: u32, state: u32, class: u32, matching: Matching) -> ImageRule
    requires { classes < 256 }
    ensures { rule_of result ≡ row_zero matching classes state class }
{
    if state == State::Start as u32 && class == classes {
        ImageRule {
            kind: KIND_PUSH,
            state: State::Work as u8,
            symbol: 1,
            direction: DIRECTION_RIGHT,
        }
    } else if state == State::Ok as u32 && class == classes + 1 {
        ImageRule {
            kind: KIND_POP,
            state: State::Done as u8,
            symbol: 0,
            direction: POP_STAY,
        }
    } else if state == State::Ok as u32 && class < classes {
        on_byte(matching)
    } else {
        NO_RULE
    }
}
