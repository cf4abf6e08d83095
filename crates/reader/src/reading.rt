// The call `read`: the checks of a text, in the order of their refusals, and then the grammar of its lines.
ghost use Rattle.reader.specs.Calls.{ReadTells};
ghost use Rattle.reader.specs.Code.Lines.{TextRead};

use crate::definitions::lines_at;
use crate::{GrammarBytes, MAX_RULES, ReadText};
use grammar::check::RULE_BYTES;
use refusal::{Kind, Refusal};
use scanner::faults::check_text;
use scanner::undefined::check_names;

// Reads a typed grammar and keeps where each line's rules end, so that a rule's line is found without reading again.
#[tactic(auto, using(crate::proofs::ReadRight::refusal_laws))]
pub fn read_lines(text: &[u8]) -> Result<ReadText, Refusal>
    ensures { TextRead text.now result }
{
    let lines = check_text(text)?;
    check_names(text, lines)?;
    let too_many = Refusal::new(Kind::TooManyRules, text.len());
    // each line needs a rule
    if MAX_RULES < lines {
        return Err(too_many);
    }
    let Ok(read) = lines_at(text, 0, lines) else {
        return Err(too_many);
    };
    let bytes = read.rules.bytes;
    let ends = read.ends;
    Ok(ReadText {
        grammar: GrammarBytes {
            bytes,
            length: RULE_BYTES * read.rules.next,
        },
        lines,
        ends,
    })
}

// Reads a typed grammar: its bytes, or the first refusal: 15 and 17 by the earliest fault, 15 by the first undefined name, 16.
pub fn read(text: &[u8]) -> Result<GrammarBytes, Refusal>
    ensures { ReadTells text.now result }
{
    let read = read_lines(text)?;
    Ok(read.grammar)
}
