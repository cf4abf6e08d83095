// Byte classes: the cuts of all ranges are marked, then one pass over the byte values counts the marks so far.
ghost use Rattle.std.specs.Prelude.{◌≡◌, ◌++◌, ◌+◌, ◌<◌, ◌≤◌, length, take, drop};
ghost use Rattle.image.specs.Format.{map_offset, map_length, rules_offset};
ghost use Rattle.builder.specs.Classes.{class_count as class_count_of};
ghost use Rattle.builder.specs.Image.{map_made};
ghost use Rattle.builder.specs.Code.Marking.{MarksRange, MarksCuts};

use grammar::ByteRange;
use grammar::check::{RULE_BYTES, expression_of, range_of};
use image::format::{MAP_LENGTH, MAP_OFFSET};

// Marks where a range begins, and the value after its last byte if there is one. A range with its low byte above its high byte has no mark.
#[tactic(auto, using(crate::proofs::CodeMarks::mark_laws), unfolding(crate::specs::Classes::cuts_at))]
fn mark_range(marks: &mut [u8; MAP_LENGTH], r: Option<ByteRange>)
    ensures { MarksRange r marks.old marks.new }
{
    let Some(ByteRange { low, high }) = r else {
        return;
    };
    if high < low {
        return;
    }
    marks[usize::from(low)] = 1;
    if high < 255 {
        marks[usize::from(high) + 1] = 1;
    }
}

// The cuts of all ranges of a grammar, marked: 1 where a class begins, else 0. Each rule is looked at once, not once for each byte value.
fn marked_cuts(grammar: &[u8]) -> [u8; MAP_LENGTH]
    ensures { MarksCuts grammar.now result }
{
    let mut marks = [0u8; MAP_LENGTH];
    for k in 0..grammar.len() / RULE_BYTES {
        mark_range(&mut marks, range_of(expression_of(grammar, k)));
    }
    marks
}

// K, the count of classes.
pub fn class_count(grammar: &[u8]) -> u32
    ensures { result ≡ class_count_of grammar.now }
{
    let marks = marked_cuts(grammar);
    let mut class: u32 = 0;
    for v in 1..MAP_LENGTH {
        class += u32::from(marks[v]);
    }
    class + 1
}

// The class map: the class of each byte value, between what stands before the map and after it.
pub fn write_map(grammar: &[u8], image: &mut [u8])
    requires { rules_offset ≤ length image.old }
    ensures { image.new
        ≡ take map_offset image.old ++ map_made map_length 0 grammar.now
        ++ drop rules_offset image.old }
{
    let marks = marked_cuts(grammar);
    let mut class: u8 = 0;
    image[MAP_OFFSET] = 0;
    for v in 1..MAP_LENGTH {
        class += marks[v];
        image[MAP_OFFSET + v] = class;
    }
}
