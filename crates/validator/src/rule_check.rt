// The check of an image's rules: refusal 6. Class by class, since a move is bad only on a marker.
ghost use Rattle.std.specs.Prelude.{◌≡◌, not, ◌&&◌, ◌||◌, ◌+◌, ◌<◌, ◌≤◌, eqb, ltb, length};
ghost use Rattle.image.specs.Format.{map_offset, pop_return};
ghost use Rattle.image.specs.Image.{rule_from};
ghost use Rattle.image.specs.Refusals.{move_off, rule_bad, rules_refusal_from, rule_count};
ghost use Rattle.refusal.specs.Checking.{checked};
ghost use Rattle.validator.specs.Code.Checking.{RuleInside, LengthChecked};

use image::Selector;
use image::format::{
    CLASSES_OFFSET, DIRECTION_LEFT, DIRECTION_RIGHT, KIND_CHANGE, KIND_HALT, KIND_NONE, KIND_POP,
    KIND_PUSH, POP_RETURN, RULE_LENGTH, RULES_OFFSET, STATES_OFFSET, SYMBOLS_OFFSET,
};
use refusal::{Kind, Refusal};

// Whether a rule that stops a run has another byte.
fn says_more(state: u8, symbol: u8, direction: u8) -> bool
    ensures { result ≡ not (eqb state 0 && (eqb symbol 0 && eqb direction 0)) }
{
    state != 0 || symbol != 0 || direction != 0
}

// Whether a pop has a symbol, or a direction that is none of a pop.
fn pop_wrong(symbol: u8, direction: u8) -> bool
    ensures { result ≡ (not (eqb symbol 0) || ltb pop_return direction) }
{
    symbol != 0 || POP_RETURN < direction
}

// Whether a move leaves the tape: left from the left marker, or right from the right one.
#[tactic(auto, unfolding(image::specs::Refusals::move_off, image::specs::Image::classes))]
fn move_off(image: &[u8], class: u32, direction: u8) -> bool
    requires { map_offset ≤ length image.now }
    ensures { result ≡ move_off image.now class direction }
{
    let left = u32::from(image[CLASSES_OFFSET]);
    let right = left + 1;
    (class == left && direction == DIRECTION_LEFT)
        || (class == right && direction == DIRECTION_RIGHT)
}

// Whether the rule at a place is bad; class is the one that it stands for.
#[tactic(auto, unfolding(image::specs::Refusals::rule_bad, image::specs::Image::rule_from, image::specs::Image::states, image::specs::Image::symbols))]
fn rule_bad(image: &[u8], at: usize, class: u32) -> bool
    requires { RuleInside image.now at }
    ensures { result ≡ rule_bad image.now class (rule_from image.now at) }
{
    let state = image[at + 1];
    let symbol = image[at + 2];
    let direction = image[at + 3];
    let states = image[STATES_OFFSET];
    let symbols = image[SYMBOLS_OFFSET];
    match image[at] {
        KIND_NONE | KIND_HALT => says_more(state, symbol, direction),
        KIND_POP => states <= state || pop_wrong(symbol, direction),
        KIND_CHANGE | KIND_PUSH => {
            states <= state
                || symbols <= symbol
                || DIRECTION_LEFT < direction
                || move_off(image, class, direction)
        }
        _ => true,
    }
}

// Refusal 6: the rules in order.
pub fn check_rules(image: &[u8]) -> Result<(), Refusal>
    requires { LengthChecked image.now }
    ensures { result ≡ checked (rules_refusal_from (rule_count image.now) 0 image.now) }
{
    let columns = u32::from(image[CLASSES_OFFSET]) + 2;
    let symbols = u32::from(image[SYMBOLS_OFFSET]);
    let count = (image.len() - RULES_OFFSET) / RULE_LENGTH;
    let mut s = Selector::first();
    for i in 0..count {
        let at = RULES_OFFSET + RULE_LENGTH * i;
        if rule_bad(image, at, s.class) {
            return Err(Refusal::new(Kind::Rule, at));
        }
        s = s.next(columns, symbols);
    }
    Ok(())
}
