// Lookups: what an image says of one configuration. Each is a few reads; none has a loop.
ghost use Rattle.std.specs.Prelude.{◌≡◌, ◌+◌, ◌*◌, ◌<◌, ◌≤◌, length};
ghost use Rattle.image.specs.Format;
ghost use Rattle.machine.specs.Terminating.{accepts_by};
ghost use Rattle.machine.specs.Run.{returned as returned_to};
ghost use Rattle.codec.specs.Numbers.{u32_at};
ghost use Rattle.image.specs.Image.{sizes_of, class_under, rule_from, moved, led_to, action_by, action};
ghost use Rattle.image.specs.Refusals.{Unrefused};
ghost use Rattle.image.specs.Code.Lookup.{Counted, LookupReady, RuleFits, offset_by, HeadMoves, RuleReady};

use crate::Sizes;
use crate::format::{
    CLASSES_OFFSET, DIRECTION_LEFT, DIRECTION_RIGHT, FINALS_OFFSET, KIND_CHANGE, KIND_HALT,
    KIND_POP, KIND_PUSH, MAP_OFFSET, POP_RETURN, RULE_LENGTH, RULES_OFFSET, SYMBOLS_OFFSET,
};
use codec::read_u32;
use machine::{Action, Config, Reason};

// The counts, read once for all lookups.
#[tactic(auto, using(crate::proofs::Rules::good, crate::proofs::Lookups::rules_few), unfolding(crate::specs::Image::sizes_of, crate::specs::Image::classes, crate::specs::Image::symbols))]
pub fn sizes_of(image: &[u8], capture: &[u8]) -> Sizes
    requires { Unrefused image.now capture.now }
    ensures { result ≡ sizes_of image.now capture.now }
{
    let n = capture.len() as u32;
    let places = n + 2;
    let classes = u32::from(image[CLASSES_OFFSET]);
    let symbols = u32::from(image[SYMBOLS_OFFSET]);
    let rules = (classes + 2) * symbols;
    Sizes {
        classes,
        symbols,
        places,
        rules,
    }
}

// The final states, a bit for each.
pub fn finals_of(image: &[u8]) -> u32
    requires { Format.map_offset ≤ length image.now }
    ensures { result ≡ u32_at image.now Format.finals_offset }
{
    read_u32(image, FINALS_OFFSET)
}

// The class under the head: K on the left marker, K + 1 on the right one.
fn class_under(image: &[u8], capture: &[u8], sizes: Sizes, head: u32) -> u32
    requires { Counted image.now capture.now sizes }
    ensures { result ≡ class_under image.now capture.now head }
{
    let classes = sizes.classes;
    if head == 0 {
        return classes;
    }
    match capture.get((head - 1) as usize) {
        Some(&b) => u32::from(image[MAP_OFFSET + usize::from(b)]),
        None => classes + 1,
    }
}

// Where the rule for a state, a class and a symbol stands. The rules of one state were counted once, so that the next rule waits for one product after the state.
#[tactic(auto, using(crate::proofs::Lookups::earlier_few, crate::proofs::Lookups::column_few, crate::proofs::Lookups::index_few))]
fn rule_offset(sizes: Sizes, state: u32, class: u32, symbol: u32) -> usize
    requires { RuleFits sizes state class symbol }
    ensures { result ≡ offset_by sizes state class symbol }
{
    let earlier = state * sizes.rules;
    let column = class * sizes.symbols;
    let index = earlier + column + symbol;
    RULES_OFFSET + RULE_LENGTH * (index as usize)
}

// The head after a move.
#[tactic(auto, unfolding(crate::specs::Image::moved))]
fn moved_head(direction: u8, head: u32) -> u32
    requires { HeadMoves direction head }
    ensures { result ≡ moved direction head }
{
    match direction {
        DIRECTION_RIGHT => head + 1,
        DIRECTION_LEFT => head - 1,
        _ => head,
    }
}

// The configuration that a change or a push leads to.
#[tactic(auto, unfolding(crate::specs::Image::rule_from))]
fn led_to(image: &[u8], offset: usize, head: u32) -> Config
    requires { RuleReady image.now offset head }
    ensures { result ≡ led_to (rule_from image.now offset) head }
{
    Config {
        state: u32::from(image[offset + 1]),
        head: moved_head(image[offset + 3], head),
        symbol: u32::from(image[offset + 2]),
    }
}

// What the rule at an offset does with the head at a place.
#[tactic(auto, unfolding(crate::specs::Image::rule_from, crate::specs::Image::action_by))]
fn action_at(image: &[u8], offset: usize, head: u32) -> Action
    requires { RuleReady image.now offset head }
    ensures { result ≡ action_by (rule_from image.now offset) head }
{
    match image[offset] {
        KIND_CHANGE => Action::Change(led_to(image, offset, head)),
        KIND_PUSH => Action::Push(led_to(image, offset, head)),
        KIND_POP => Action::Pop {
            state: u32::from(image[offset + 1]),
            returns: image[offset + 3] == POP_RETURN,
        },
        KIND_HALT => Action::Stop(Reason::Halting),
        _ => Action::Stop(Reason::Missing),
    }
}

// What a configuration's rule does. It reads that one rule and no count.
pub fn action_of(image: &[u8], capture: &[u8], sizes: Sizes, c: Config) -> Action
    requires { LookupReady image.now capture.now sizes c }
    ensures { result ≡ action image.now capture.now c }
{
    let head = c.head;
    let class = class_under(image, capture, sizes, head);
    let offset = rule_offset(sizes, c.state, class, c.symbol);
    action_at(image, offset, head)
}

// Whether a run that ends with this state and head accepts.
#[tactic(auto, unfolding(machine::specs::Terminating::accepts_by))]
pub fn accepts(finals: u32, places: u32, state: u32, head: u32) -> bool
    requires { (state < Format.max_states) × (head < Format.max_places) }
    ensures { result ≡ accepts_by finals places state head }
{
    (finals >> state) % 2 == 1 && head + 1 == places
}

// The head after a pop: back at the removed entry's pointer, or where it is.
pub fn returned(returns: bool, pointer: u32, head: u32) -> u32
    ensures { result ≡ returned_to returns pointer head }
{
    if returns { pointer } else { head }
}
