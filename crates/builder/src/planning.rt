// What building and judging need of a grammar that is not refused: the image's counts and length, and the machine's cells.
ghost use Rattle.std.specs.Prelude.{◌≡◌, ◌+◌, ◌*◌, ◌≤◌, length};
ghost use Rattle.image.specs.Format.{rules_offset, max_capture};
ghost use Rattle.grammar.specs.Grammar.{max_rules};
ghost use Rattle.builder.specs.Classes.{class_count};
ghost use Rattle.builder.specs.Image.{symbols_of, built_rules, built_length};
ghost use Rattle.builder.specs.Code.Building.{CellsAre};

use crate::byte_classes::class_count;
use crate::rows::STATES;
use grammar::Grammar;
use grammar::check::RULE_BYTES;
use image::format::{RULE_LENGTH, RULES_OFFSET};

// What building needs of a grammar: the count of classes, of the image's rules, and the image's length. It is worked out once.
#[derive(Clone, Copy)]
pub struct Plan<'a> {
    pub grammar: Grammar<'a>,
    pub classes: u32,
    pub count: u32,
    pub long: usize,
    pub ghost classes_are: { classes ≡ class_count grammar.bytes.now },
    pub ghost count_is: { count ≡ built_rules grammar.bytes.now },
    pub ghost long_is: { long ≡ built_length grammar.bytes.now },
}

// G, the count of symbols.
#[tactic(auto, unfolding(crate::specs::Image::symbols_of, grammar::specs::Grammar::rules))]
pub fn symbol_count(grammar: &[u8]) -> u32
    requires { length grammar.now ≤ 4 * max_rules }
    ensures { result ≡ symbols_of grammar.now }
{
    let m = (grammar.len() / RULE_BYTES) as u32;
    2 * m + 1
}

// How many rules the image has.
fn rule_count(grammar: Grammar<'_>, classes: u32) -> u32
    requires { classes ≡ class_count grammar.bytes.now }
    ensures { result ≡ built_rules grammar.entry.bytes.now }
{
    let symbols = symbol_count(grammar.bytes);
    let columns = classes + 2;
    u32::from(STATES) * columns * symbols
}

// The length of an image with so many rules.
fn image_length(count: u32) -> usize
    ensures { result ≡ rules_offset + 4 * count }
{
    RULES_OFFSET + RULE_LENGTH * (count as usize)
}

// The plan of an image: its classes are counted once.
pub fn plan_of(grammar: Grammar<'_>) -> Plan<'_>
    ensures { result.grammar.bytes.now ≡ grammar.entry.bytes.now }
{
    let classes = class_count(grammar.bytes);
    let count = rule_count(grammar, classes);
    let long = image_length(count);
    Plan {
        grammar,
        classes,
        count,
        long,
    }
}

// N, the cells that the grammar's machine needs for a capture of n bytes.
pub fn cells_of(grammar: Grammar<'_>, n: usize) -> usize
    requires { n ≤ max_capture }
    ensures { CellsAre grammar.entry.bytes.now n result }
{
    let symbols = symbol_count(grammar.bytes) as usize;
    let places = n + 2;
    usize::from(STATES) * places * symbols
}
