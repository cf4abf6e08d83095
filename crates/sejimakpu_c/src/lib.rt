// The archive for C and Rust: each function of the crate sejimakpu under the name that include/sejimakpu.h declares, with the same contract. It does nothing else.
// kept: each function stands here again, since what C calls has to stand in a static library, and other crates stand on a library.
// A slice is never null, not even an empty one: hence the names. The header's inline functions let C pass null with length 0.
#![tactic(auto)]

ghost use Rattle.std.specs.Prelude.{◌≡◌};
ghost use Rattle.builder.specs.declared.Matching.TheVariants.{Whole};
ghost use Rattle.builder.specs.Matching.{default_matching};
ghost use Rattle.grammar_judge.specs.Calls.{lent};
ghost use Rattle.sejimakpu.specs.Calls.{CheckTells, CellsTells, JudgeTells, RunTells, BuildTells, CheckRecursionTells, ReadGrammarTells, BuildTextTells, JudgeTextTells, CheckTextRecursionTells, JudgeBundleTells};
ghost use Rattle.sejimakpu.specs.Version.{version_number};

// Whether an image is good.
#[unsafe(no_mangle)]
pub extern "C" fn sejimakpu_check_nonnull(image: &[u8], answer: &mut [u64; 6]) -> u32
    ensures { CheckTells image.now result answer.new }
{
    sejimakpu::sejimakpu_check_nonnull(image, answer)
}

// How many cells the judging of a capture of n bytes needs.
#[unsafe(no_mangle)]
pub extern "C" fn sejimakpu_cells_nonnull(image: &[u8], n: usize, answer: &mut [u64; 6]) -> u32
    ensures { CellsTells image.now n result answer.new }
{
    sejimakpu::sejimakpu_cells_nonnull(image, n, answer)
}

// Judging.
#[unsafe(no_mangle)]
pub extern "C" fn sejimakpu_judge_nonnull(
    image: &[u8],
    capture: &[u8],
    notes: &mut [u32],
    work: &mut [u32],
    answer: &mut [u64; 6],
) -> u32
    ensures { JudgeTells image.now capture.now
        notes.old notes.new work.old work.new
        result answer.new }
{
    sejimakpu::sejimakpu_judge_nonnull(image, capture, notes, work, answer)
}

// The plain run.
#[unsafe(no_mangle)]
pub extern "C" fn sejimakpu_plain_run_nonnull(
    image: &[u8],
    capture: &[u8],
    budget: u32,
    stack: &mut [u32],
    answer: &mut [u64; 6],
) -> u32
    ensures { RunTells image.now capture.now budget
        stack.old stack.new result answer.new }
{
    sejimakpu::sejimakpu_plain_run_nonnull(image, capture, budget, stack, answer)
}

// Building, with no choice given.
#[unsafe(no_mangle)]
pub extern "C" fn sejimakpu_build_nonnull(
    grammar: &[u8],
    image: &mut [u8],
    answer: &mut [u64; 6],
) -> u32
    ensures { BuildTells default_matching grammar.now image.old image.new result answer.new }
{
    sejimakpu::sejimakpu_build_nonnull(grammar, image, answer)
}

// Building of an image that matches whole captures.
#[unsafe(no_mangle)]
pub extern "C" fn sejimakpu_build_whole_nonnull(
    grammar: &[u8],
    image: &mut [u8],
    answer: &mut [u64; 6],
) -> u32
    ensures { BuildTells Whole grammar.now image.old image.new result answer.new }
{
    sejimakpu::sejimakpu_build_whole_nonnull(grammar, image, answer)
}

// Whether a grammar is right, and no rule of it leads back to itself.
#[unsafe(no_mangle)]
pub extern "C" fn sejimakpu_check_recursion_nonnull(grammar: &[u8], answer: &mut [u64; 6]) -> u32
    ensures { CheckRecursionTells grammar.now result answer.new }
{
    sejimakpu::sejimakpu_check_recursion_nonnull(grammar, answer)
}

// Reading a text: the bytes of its grammar, of which there are 124 at most.
#[unsafe(no_mangle)]
pub extern "C" fn sejimakpu_read_grammar_nonnull(
    text: &[u8],
    grammar: &mut [u8; 124],
    answer: &mut [u64; 6],
) -> u32
    ensures { ReadGrammarTells text.now grammar.old grammar.new result answer.new }
{
    sejimakpu::sejimakpu_read_grammar_nonnull(text, grammar, answer)
}

// Building, from a text.
#[unsafe(no_mangle)]
pub extern "C" fn sejimakpu_build_text_nonnull(
    text: &[u8],
    image: &mut [u8],
    answer: &mut [u64; 6],
) -> u32
    ensures { BuildTextTells text.now image.old image.new result answer.new }
{
    sejimakpu::sejimakpu_build_text_nonnull(text, image, answer)
}

// Judging, by a text.
#[unsafe(no_mangle)]
pub extern "C" fn sejimakpu_judge_text_nonnull(
    text: &[u8],
    capture: &[u8],
    image: &mut [u8],
    notes: &mut [u32],
    work: &mut [u32],
    answer: &mut [u64; 6],
) -> u32
    ensures { JudgeTextTells text.now capture.now (lent image.old notes.old work.old)
        (lent image.new notes.new work.new) result answer.new }
{
    sejimakpu::sejimakpu_judge_text_nonnull(text, capture, image, notes, work, answer)
}

// Whether a typed grammar is read, and no rule of it leads back to itself.
#[unsafe(no_mangle)]
pub extern "C" fn sejimakpu_check_text_recursion_nonnull(text: &[u8], answer: &mut [u64; 6]) -> u32
    ensures { CheckTextRecursionTells text.now result answer.new }
{
    sejimakpu::sejimakpu_check_text_recursion_nonnull(text, answer)
}

// Judging the captures of a bundle: 64 lines of seven cells are lent, and ten cells for their totals.
#[unsafe(no_mangle)]
pub extern "C" fn sejimakpu_judge_bundle_nonnull(
    image: &[u8],
    bundle: &[u8],
    notes: &mut [u32],
    work: &mut [u32],
    lines: &mut [u64; 448],
    totals: &mut [u64; 10],
    answer: &mut [u64; 6],
) -> u32
    ensures { JudgeBundleTells image.now bundle.now lines.old lines.new
        totals.old totals.new notes.old notes.new work.old work.new
        result answer.new }
{
    sejimakpu::sejimakpu_judge_bundle_nonnull(image, bundle, notes, work, lines, totals, answer)
}

// 0.1.0, as one number. It takes no slice, and so its name does not say nonnull.
#[unsafe(no_mangle)]
pub extern "C" fn sejimakpu_version() -> u32
    ensures { result ≡ version_number }
{
    sejimakpu::version::sejimakpu_version()
}
