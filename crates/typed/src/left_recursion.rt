// The check of a typed grammar for left recursion: beside the rule that leads back to itself it names a place in the text, which its author can look up.
ghost use Rattle.std.specs.Prelude.{◌≡◌};
ghost use Rattle.typed.specs.declared.left_recursion.RecursionFault.TheVariants.{Refused};
ghost use Rattle.typed.specs.Recursion.{TextRecursionSays};

use grammar::Grammar;
use reader::reading::read_lines;
use recursion::check::find_recursion;
use refusal::Refusal;
use scanner::lines::line_offset;

// Why a typed grammar does not pass: a refusal of the text; or the lowest rule that leads back to itself, and the offset of the name of the line that it is of.
#[derive(Clone, Copy, Debug, PartialEq, Eq)]
pub enum RecursionFault {
    Refused(Refusal),
    Recursive { rule: usize, name: usize },
}

impl From<Refusal> for RecursionFault {
    ghost from_gives = { λ refusal fault. fault ≡ Refused refusal };

    fn from(refusal: Refusal) -> RecursionFault {
        RecursionFault::Refused(refusal)
    }
}

// Whether a typed grammar is read and no rule of it leads back to itself, and else why not and where.
pub fn check_text_recursion(text: &[u8]) -> Result<(), RecursionFault>
    ensures { TextRecursionSays text.now result }
{
    let read = read_lines(text)?;
    let bytes = read.grammar.bytes;
    let grammar = Grammar {
        bytes: &bytes[..read.grammar.length],
    };
    if let Err(recursion) = find_recursion(grammar) {
        let rule = recursion.place();
        let name = line_offset(text, read.line_of(rule));
        return Err(RecursionFault::Recursive { rule, name });
    }
    Ok(())
}
