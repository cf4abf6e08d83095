// Building: the image of a grammar, written into a lent buffer from its first byte on.
ghost use Rattle.std.specs.Prelude.{◌≡◌, ◌&&◌, ◌+◌, ◌*◌, ◌^◌, ◌<◌, ◌≤◌, ltb, length, IfSome};
ghost use Rattle.codec.specs.Bytes.{written};
ghost use Rattle.codec.specs.Numbers.{u32_width};
ghost use Rattle.image.specs.Format.{map_offset, rules_offset, rule_length};
ghost use Rattle.image.specs.Encoding.{header};
ghost use Rattle.refusal.specs.Checking.{checked};
ghost use Rattle.builder.specs.Table.{state_count, finals};
ghost use Rattle.builder.specs.Image.{built, built_length};
ghost use Rattle.builder.specs.Calls.{build_refusal, BuildSays, room_refusal};
ghost use Rattle.builder.specs.Code.Writing.{class_between, inside_by, RowsReady, RuleReady, MadePair, with_rule, with_rules};

use crate::byte_classes::write_map;
use crate::planning::{Plan, plan_of, symbol_count};
use crate::rows::{FINALS, NO_RULE, STATES, pair_by, row_zero, unruled};
use crate::{ImageRule, Matching, RulePair};
use codec::{Pair, write_four, write_pair, write_u32};
use grammar::check::{check_grammar, range_of};
use grammar::{ByteRange, Grammar};
use image::format::{
    COUNTS_LENGTH, COUNTS_OFFSET, COUNTS_PAIR, FINALS_OFFSET, MAP_LENGTH, MAP_OFFSET, MAP_PAIR,
    RULE_LENGTH, RULES_OFFSET, RULES_PAIR, STATES_OFFSET,
};
use refusal::{Kind, Refusal};

// The directory, the counts and the finals, of an image with so many rules.
fn write_header(image: &mut [u8], classes: u8, symbols: u8, count: u32)
    requires { (map_offset ≤ length image.old) × (rule_length * count < 256 ^ u32_width) }
    ensures { image.new ≡ written image.old 0 (header state_count classes symbols finals count) }
{
    let size = (RULE_LENGTH as u32) * count;
    let counts_pair = Pair {
        offset: COUNTS_OFFSET as u32,
        long: COUNTS_LENGTH as u32,
    };
    let map_pair = Pair {
        offset: MAP_OFFSET as u32,
        long: MAP_LENGTH as u32,
    };
    let rules_pair = Pair {
        offset: RULES_OFFSET as u32,
        long: size,
    };
    write_pair(image, COUNTS_PAIR, counts_pair);
    write_pair(image, MAP_PAIR, map_pair);
    write_pair(image, RULES_PAIR, rules_pair);
    write_four(image, STATES_OFFSET, STATES, classes, symbols, 0);
    write_u32(image, FINALS_OFFSET, FINALS);
}

// kept: range_has, class_inside and write_map ask for the class map's bytes in a clause: the buffer is written between the calls, so that a type for it would be made anew for each.
// Whether a byte class, and no marker, is in a range, by the classes of its two bytes. None is where the low byte is above the high byte, though both may be of one class.
#[tactic(auto, unfolding(crate::specs::Code::Writing::class_between))]
fn range_has(image: &[u8], classes: u32, range: ByteRange, class: u32) -> bool
    requires { rules_offset ≤ length image.now }
    ensures { result ≡ (ltb class classes && class_between image.now range.low range.high class) }
{
    if classes <= class || range.high < range.low {
        return false;
    }
    let first = u32::from(image[MAP_OFFSET + usize::from(range.low)]);
    let last = u32::from(image[MAP_OFFSET + usize::from(range.high)]);
    first <= class && class <= last
}

// Whether a byte class, and no marker, is in what may be a range.
#[tactic(auto, unfolding(crate::specs::Code::Writing::inside_by))]
fn class_inside(image: &[u8], classes: u32, r: Option<ByteRange>, class: u32) -> bool
    requires { rules_offset ≤ length image.now }
    ensures inside { result ≡ inside_by image.now classes r class }
    ensures bytes { IfSome r (λ range. (range.low < 256) × (range.high < 256)) }
{
    match r {
        Some(range) => range_has(image, classes, range, class),
        None => false,
    }
}

// The rules that state and class select with rule k's first symbol, and with its second; the image has its class map.
fn made_pair(
    grammar: Grammar<'_>,
    image: &[u8],
    classes: u32,
    k: u32,
    class: u32,
    state: u32,
) -> RulePair
    requires { RuleReady grammar.bytes.now image.now classes k }
    ensures { MadePair grammar.entry.bytes.now state class k result }
{
    if unruled(state) {
        return RulePair {
            first: NO_RULE,
            second: NO_RULE,
        };
    }
    let e = grammar.expression(k as usize);
    let inside = class_inside(image, classes, range_of(e), class);
    pair_by(e, k as u8, inside, state)
}

// The rule with an index.
fn write_rule(image: &mut [u8], i: u32, r: ImageRule)
    requires { rules_offset + rule_length * i + rule_length ≤ length image.old }
    ensures { image.new ≡ with_rule image.old i r }
{
    let at = RULES_OFFSET + RULE_LENGTH * (i as usize);
    write_four(image, at, r.kind, r.state, r.symbol, r.direction);
}

// The rules, in the order of their indices, after the class map: symbol 0 by itself, then the two of a grammar rule at once, which is looked at once for them.
// kept: i is counted, by one and by two: worked out of state, class and k it would be two products more for each pair.
fn write_rules(plan: Plan<'_>, image: &mut [u8], matching: Matching)
    requires ready { RowsReady plan.grammar.bytes.now image.old plan.classes }
    requires room { length image.old ≡ built_length plan.grammar.bytes.now }
    ensures { image.new ≡ with_rules matching plan.entry.grammar.bytes.now image.old }
{
    let grammar = plan.grammar;
    let classes = plan.classes;
    let count = grammar.count() as u32;
    let mut i: u32 = 0;
    for state in 0..u32::from(STATES) {
        for class in 0..classes + 2 {
            write_rule(image, i, row_zero(classes, state, class, matching));
            i += 1;
            for k in 0..count {
                let pair = made_pair(grammar, image, classes, k, class, state);
                write_rule(image, i, pair.first);
                write_rule(image, i + 1, pair.second);
                i += 2;
            }
        }
    }
}

// The image of a grammar that is not refused, in a buffer of exactly its length.
pub fn build_checked(plan: Plan<'_>, image: &mut [u8], matching: Matching)
    requires { length image.old ≡ built_length plan.grammar.bytes.now }
    ensures { image.new ≡ built matching plan.entry.grammar.bytes.now }
{
    let grammar = plan.grammar.bytes;
    let symbols = symbol_count(grammar);
    write_header(image, plan.classes as u8, symbols as u8, plan.count);
    write_map(grammar, image);
    write_rules(plan, image, matching);
}

// Refusal 13: a buffer of so many bytes, for an image that is so long.
#[tactic(auto, unfolding(refusal::specs::First::refuse_if, refusal::specs::Checking::checked))]
pub fn check_room(long: usize, room: usize) -> Result<(), Refusal>
    ensures { result ≡ checked (room_refusal long room) }
{
    if room < long {
        return Err(Refusal::new(Kind::ImageBufferShort, long));
    }
    Ok(())
}

// Whether a buffer of so many bytes can take the image of a grammar, and else the first refusal of 11 to 13.
pub fn check_build(grammar: &[u8], room: usize) -> Result<(), Refusal>
    ensures { result ≡ checked (build_refusal grammar.now room) }
{
    check_grammar(grammar)?;
    let plan = plan_of(Grammar { bytes: grammar });
    check_room(plan.long, room)
}

// Building of a planned image: its length, or refusal 13.
pub fn build_planned(plan: Plan<'_>, image: &mut [u8], matching: Matching) -> Result<usize, Refusal>
    ensures { BuildSays matching plan.entry.grammar.bytes.now result image.old image.new }
{
    let long = plan.long;
    check_room(long, image.len())?;
    build_checked(plan, &mut image[..long], matching);
    Ok(long)
}

// Building, by a choice: the image's length, or the first refusal of 11 to 13. Later bytes stay, and a refusal changes none.
pub fn build_image(grammar: &[u8], image: &mut [u8], matching: Matching) -> Result<usize, Refusal>
    ensures { BuildSays matching grammar.now result image.old image.new }
{
    check_grammar(grammar)?;
    let plan = plan_of(Grammar { bytes: grammar });
    build_planned(plan, image, matching)
}
