// The library for C and Rust: each call on numbers and slices, its answer in six cells. The crate sejimakpu_c exports these functions, which include/sejimakpu.h declares.
// A slice is never null, not even an empty one: hence the names. The header's inline functions let C pass null with length 0.
#![tactic(auto)]

pub mod reply;
pub mod version;

ghost use Rattle.std.specs.Prelude.{◌≡◌, List, ℕ};
ghost use Rattle.reader.specs.Calls.{ReadTells};
ghost use Rattle.typed.specs.Replies.{grammar_left};
ghost use Rattle.builder.specs.declared.Matching.TheVariants.{Whole};
ghost use Rattle.builder.specs.Matching.{default_matching};
ghost use Rattle.grammar_judge.specs.Calls.{lent};
ghost use Rattle.sejimakpu.specs.Calls.{CheckTells, CellsTells, JudgeTells, RunTells, BuildTells, CheckRecursionTells, ReadGrammarTells, BuildTextTells, JudgeTextTells, CheckTextRecursionTells, JudgeBundleTells};

use builder::build::build_image;
use builder::{Matching, default_matching};
use bundle::judging::judge_bundle;
use interpreter::plain_run;
use machine::replies::Answer;
use reader::GrammarBytes;
use reader::reading::read;
use recursion::check::check_recursion;
use refusal::Refusal;
use reply::{write_reply, write_totals};
use simulator::judge::{cells, judge};
use typed::left_recursion::check_text_recursion;
use typed::{build_text, judge_text};
use validator::check::check_image;

// Whether an image is good.
pub fn sejimakpu_check_nonnull(image: &[u8], answer: &mut [u64; 6]) -> u32
    ensures { CheckTells image.now result answer.new }
{
    write_reply(answer, check_image(image).reply())
}

// How many cells the judging of a capture of n bytes needs.
pub fn sejimakpu_cells_nonnull(image: &[u8], n: usize, answer: &mut [u64; 6]) -> u32
    ensures { CellsTells image.now n result answer.new }
{
    write_reply(answer, cells(image, n).reply())
}

// Judging.
pub fn sejimakpu_judge_nonnull(
    image: &[u8],
    capture: &[u8],
    notes: &mut [u32],
    work: &mut [u32],
    answer: &mut [u64; 6],
) -> u32
    ensures { JudgeTells image.now capture.now
        notes.old notes.new work.old work.new
        result answer.new }
{
    let judged = judge(image, capture, notes, work);
    write_reply(answer, judged.reply())
}

// The plain run.
pub fn sejimakpu_plain_run_nonnull(
    image: &[u8],
    capture: &[u8],
    budget: u32,
    stack: &mut [u32],
    answer: &mut [u64; 6],
) -> u32
    ensures { RunTells image.now capture.now budget
        stack.old stack.new result answer.new }
{
    let ran = plain_run(image, capture, budget, stack);
    write_reply(answer, ran.reply())
}

// Building, with no choice given.
pub fn sejimakpu_build_nonnull(grammar: &[u8], image: &mut [u8], answer: &mut [u64; 6]) -> u32
    ensures { BuildTells default_matching grammar.now image.old image.new result answer.new }
{
    let built = build_image(grammar, image, default_matching());
    write_reply(answer, built.reply())
}

// Building of an image that matches whole captures.
pub fn sejimakpu_build_whole_nonnull(grammar: &[u8], image: &mut [u8], answer: &mut [u64; 6]) -> u32
    ensures { BuildTells Whole grammar.now image.old image.new result answer.new }
{
    let built = build_image(grammar, image, Matching::Whole);
    write_reply(answer, built.reply())
}

// Whether a grammar is right, and no rule of it leads back to itself.
pub fn sejimakpu_check_recursion_nonnull(grammar: &[u8], answer: &mut [u64; 6]) -> u32
    ensures { CheckRecursionTells grammar.now result answer.new }
{
    write_reply(answer, check_recursion(grammar).reply())
}

// What reading a text answered: the grammar at the start of a buffer, and the later bytes as they were; of a refused text nothing.
fn put_grammar(buffer: &mut [u8; 124], got: &Result<GrammarBytes, Refusal>)
    requires { (text : List ℕ) × ReadTells text got.now }
    ensures { buffer.new ≡ grammar_left got.now buffer.old }
{
    if let Ok(read) = got {
        buffer[..read.length].copy_from_slice(&read.bytes[..read.length]);
    }
}

// Reading a text: the bytes of its grammar, of which there are 124 at most.
pub fn sejimakpu_read_grammar_nonnull(
    text: &[u8],
    grammar: &mut [u8; 124],
    answer: &mut [u64; 6],
) -> u32
    ensures { ReadGrammarTells text.now grammar.old grammar.new result answer.new }
{
    let got = read(text);
    put_grammar(grammar, &got);
    write_reply(answer, got.reply())
}

// Building, from a text.
pub fn sejimakpu_build_text_nonnull(text: &[u8], image: &mut [u8], answer: &mut [u64; 6]) -> u32
    ensures { BuildTextTells text.now image.old image.new result answer.new }
{
    let written = build_text(text, image);
    write_reply(answer, written.reply())
}

// Judging, by a text.
pub fn sejimakpu_judge_text_nonnull(
    text: &[u8],
    capture: &[u8],
    image: &mut [u8],
    notes: &mut [u32],
    work: &mut [u32],
    answer: &mut [u64; 6],
) -> u32
    ensures { JudgeTextTells text.now capture.now (lent image.old notes.old work.old)
        (lent image.new notes.new work.new) result answer.new }
{
    let judged = judge_text(text, capture, image, notes, work);
    write_reply(answer, judged.reply())
}

// Whether a typed grammar is read, and no rule of it leads back to itself.
pub fn sejimakpu_check_text_recursion_nonnull(text: &[u8], answer: &mut [u64; 6]) -> u32
    ensures { CheckTextRecursionTells text.now result answer.new }
{
    write_reply(answer, check_text_recursion(text).reply())
}

// Judging the captures of a bundle: 64 lines of seven cells are lent, and ten cells for their totals.
pub fn sejimakpu_judge_bundle_nonnull(
    image: &[u8],
    bundle: &[u8],
    notes: &mut [u32],
    work: &mut [u32],
    lines: &mut [u64; 448],
    totals: &mut [u64; 10],
    answer: &mut [u64; 6],
) -> u32
    ensures { JudgeBundleTells image.now bundle.now lines.old lines.new
        totals.old totals.new notes.old notes.new work.old work.new
        result answer.new }
{
    let report = judge_bundle(image, bundle, notes, work, lines);
    write_totals(totals, &report);
    write_reply(answer, report.reply())
}
