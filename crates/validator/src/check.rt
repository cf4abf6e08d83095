// The check of an image and of a capture's length: refusals 1 to 7, in the order of the table, for every byte string of any length.
ghost use Rattle.std.specs.Prelude.{◌≡◌, ◌+◌, ◌*◌, ◌^◌, ◌<◌, ◌≤◌, ltb, length};
ghost use Rattle.codec.specs.Numbers.{pair_width};
ghost use Rattle.image.specs.Format.{map_offset, map_length, rules_offset, max_states, max_capture};
ghost use Rattle.refusal.specs.First.{refusal, refuse_if};
ghost use Rattle.image.specs.Refusals.{pair_is, directory, count_wrong, counts, map_from, rule_count, body_refusal, image_refusal, capture_refusal};
ghost use Rattle.refusal.specs.Checking.{checked};
ghost use Rattle.validator.specs.Code.Checking.{CountsChecked};

use crate::rule_check::check_rules;
use codec::{read_pair, read_u32};
use image::format::{
    CLASSES_OFFSET, COUNTS_LENGTH, COUNTS_OFFSET, COUNTS_PAIR, FINALS_OFFSET, MAP_LENGTH,
    MAP_OFFSET, MAP_PAIR, MAX_CAPTURE, MAX_CLASSES, MAX_STATES, MAX_SYMBOLS, RULE_LENGTH,
    RULES_OFFSET, RULES_PAIR, RULES_SIZE, STATES_OFFSET, SYMBOLS_OFFSET, ZERO_OFFSET,
};
use refusal::{Kind, Refusal};

// Whether the directory's pair at a place is this offset and length.
#[tactic(auto, unfolding(image::specs::Refusals::pair_is))]
fn pair_is(image: &[u8], at: usize, offset: usize, long: usize) -> bool
    requires { at + pair_width ≤ length image.now }
    ensures { result ≡ pair_is image.now at offset long }
{
    let pair = read_pair(image, at);
    pair.offset as usize == offset && pair.long as usize == long
}

// Refusal 2: a pair of the directory.
// kept: four functions ask for the first 32 bytes in a clause each; a type for it would be made in check_image and taken apart at once.
#[tactic(auto, unfolding(image::specs::Refusals::directory, refusal::specs::Checking::checked))]
fn check_directory(image: &[u8]) -> Result<(), Refusal>
    requires { map_offset ≤ length image.now }
    ensures { result ≡ checked (directory image.now) }
{
    if !pair_is(image, COUNTS_PAIR, COUNTS_OFFSET, COUNTS_LENGTH) {
        return Err(Refusal::new(Kind::Directory, COUNTS_PAIR));
    }
    if !pair_is(image, MAP_PAIR, MAP_OFFSET, MAP_LENGTH) {
        return Err(Refusal::new(Kind::Directory, MAP_PAIR));
    }
    let long = image.len();
    if long < RULES_OFFSET {
        return Err(Refusal::new(Kind::Directory, RULES_PAIR));
    }
    if !pair_is(image, RULES_PAIR, RULES_OFFSET, long - RULES_OFFSET) {
        return Err(Refusal::new(Kind::Directory, RULES_PAIR));
    }
    Ok(())
}

// Whether a count is 0 or over its limit.
#[tactic(auto, unfolding(image::specs::Refusals::count_wrong))]
fn count_wrong(count: u8, limit: u8) -> bool
    ensures { result ≡ count_wrong count limit }
{
    count == 0 || limit < count
}

// Refusal 3: a count, the byte after the counts or the finals.
#[tactic(auto, unfolding(image::specs::Refusals::counts, image::specs::Image::states, image::specs::Image::classes, image::specs::Image::symbols, refusal::specs::Checking::checked))]
fn check_counts(image: &[u8]) -> Result<(), Refusal>
    requires { map_offset ≤ length image.now }
    ensures { result ≡ checked (counts image.now) }
{
    let states = image[STATES_OFFSET];
    if count_wrong(states, MAX_STATES) {
        return Err(Refusal::new(Kind::Counts, STATES_OFFSET));
    }
    if count_wrong(image[CLASSES_OFFSET], MAX_CLASSES) {
        return Err(Refusal::new(Kind::Counts, CLASSES_OFFSET));
    }
    if count_wrong(image[SYMBOLS_OFFSET], MAX_SYMBOLS) {
        return Err(Refusal::new(Kind::Counts, SYMBOLS_OFFSET));
    }
    let zero = image[ZERO_OFFSET];
    if zero != 0 {
        return Err(Refusal::new(Kind::Counts, ZERO_OFFSET));
    }
    if !within(read_u32(image, FINALS_OFFSET), states) {
        return Err(Refusal::new(Kind::Counts, FINALS_OFFSET));
    }
    Ok(())
}

// Whether the finals name only states that are there.
fn within(finals: u32, states: u8) -> bool
    requires { states ≤ max_states }
    ensures { result ≡ ltb finals (2 ^ states) }
{
    u64::from(finals) >> states == 0
}

// Refusal 5: the class map, byte by byte.
fn check_class_map(image: &[u8]) -> Result<(), Refusal>
    requires { rules_offset ≤ length image.now }
    ensures { result ≡ checked (map_from map_length map_offset image.now) }
{
    let classes = image[CLASSES_OFFSET];
    for at in MAP_OFFSET..RULES_OFFSET {
        if classes <= image[at] {
            return Err(Refusal::new(Kind::ClassMap, at));
        }
    }
    Ok(())
}

// How many rules the counts ask for.
fn rule_count(image: &[u8]) -> u32
    requires { map_offset ≤ length image.now }
    ensures { result ≡ rule_count image.now }
{
    let states = u32::from(image[STATES_OFFSET]);
    let classes = u32::from(image[CLASSES_OFFSET]);
    let symbols = u32::from(image[SYMBOLS_OFFSET]);
    states * (classes + 2) * symbols
}

// Refusals 4 to 6, where directory and counts are right: the length, the class map, the rules.
#[tactic(auto, using(refusal::proofs::Checked::in_turn), unfolding(image::specs::Refusals::body_refusal, refusal::specs::Checking::checked))]
fn check_body(image: &[u8]) -> Result<(), Refusal>
    requires { CountsChecked image.now }
    ensures { result ≡ checked (body_refusal image.now) }
{
    let long = image.len();
    let count = rule_count(image) as usize;
    let expected = RULES_OFFSET + RULE_LENGTH * count;
    if long != expected {
        return Err(Refusal::new(Kind::RulesLength, RULES_SIZE));
    }
    check_class_map(image)?;
    check_rules(image)
}

// Whether an image is good, and else why not and where.
#[tactic(auto, using(refusal::proofs::Checked::in_turn), unfolding(image::specs::Refusals::image_refusal, refusal::specs::Checking::checked))]
pub fn check_image(image: &[u8]) -> Result<(), Refusal>
    ensures { result ≡ checked (image_refusal image.now) }
{
    let long = image.len();
    if long < MAP_OFFSET {
        return Err(Refusal::new(Kind::ImageShort, long));
    }
    check_directory(image)?;
    check_counts(image)?;
    check_body(image)
}

// Refusal 7, of a capture of n bytes, or number 0.
#[tactic(auto, unfolding(refusal::specs::First::refuse_if, refusal::specs::Checking::checked))]
pub fn check_length(n: usize) -> Result<(), Refusal>
    ensures { result ≡ checked (refuse_if (ltb max_capture n) (refusal 7 n)) }
{
    if MAX_CAPTURE < n {
        return Err(Refusal::new(Kind::CaptureLong, n));
    }
    Ok(())
}

// The first refusal of 1 to 7, of an image and a capture of n bytes, or number 0.
#[tactic(auto, using(refusal::proofs::Checked::in_turn), unfolding(image::specs::Refusals::capture_refusal))]
pub fn check_capture(image: &[u8], n: usize) -> Result<(), Refusal>
    ensures { result ≡ checked (capture_refusal image.now n) }
{
    check_image(image)?;
    check_length(n)
}
