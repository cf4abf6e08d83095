// The names of a text that no line defines: the first of them.
ghost use Rattle.std.specs.Prelude.{◌≡◌, length};
ghost use Rattle.refusal.specs.Checking.{checked};
ghost use Rattle.syntax.specs.Tokens.{lexemes};
ghost use Rattle.syntax.specs.Faults.{first_undefined};
ghost use Rattle.syntax.specs.Code.Heads.{heads};

use crate::names::{FirstLines, next_word};
use crate::tokens::letters_from;
use refusal::{Kind, Refusal};

// Refuses the first name that no line defines, in a text of so many lines. Only the words are looked at.
// kept: a while, since a turn passes a word and what is between it and the next.
pub fn check_names(text: &[u8], lines: usize) -> Result<(), Refusal>
    requires { lines ≡ length (heads text.now) }
    ensures { result ≡ checked (first_undefined (heads text.now) (lexemes text.now)) }
{
    let first = FirstLines { text, count: lines };
    let mut at = next_word(text, 0);
    while at < text.len() {
        let word = letters_from(text, at);
        if first.is_new(word) {
            return Err(Refusal::new(Kind::Ungrammatical, at));
        }
        at = next_word(text, at + word.len());
    }
    Ok(())
}
