// A reader of a text: the text that was lent, and how far it has been read. It goes from a line's name to its expression.
ghost use Rattle.std.specs.Prelude.{◌≡◌};
ghost use Rattle.expressions.specs.Code.Levels.{Passes};
ghost use Rattle.reader.specs.Code.Lines.{PassesTwo};

use expressions::descent::after;

// The text that was lent, and how far it has been read.
#[derive(Clone, Copy)]
pub struct Reader<'a> {
    pub text: &'a [u8],
    pub at: usize,
}

impl<'a> Reader<'a> {
    // A text that was lent, read up to a place.
    pub fn new(text: &'a [u8], at: usize) -> Reader<'a>
        ensures { (result.text ≡ text.entry) × (result.at ≡ at) }
    {
        Reader { text, at }
    }

    // The same text, read past one lexeme more.
    pub fn passed(self) -> Reader<'a>
        ensures { (result.text ≡ self.entry.text) × Passes self.entry.text.now self.entry.at result.at }
    {
        Reader {
            text: self.text,
            at: after(self.text, self.at),
        }
    }
}

// Where the expression of the line at a place begins: past the line's name and the equals sign.
pub fn body_at(text: &[u8], at: usize) -> usize
    ensures { PassesTwo text.now at result }
{
    Reader::new(text, at).passed().passed().at
}
