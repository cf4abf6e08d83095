// The line that a rule is of, by the numbers that reading kept.
ghost use Rattle.std.specs.Prelude.{◌≡◌, ◌≤◌, nat_lt, position};
ghost use Rattle.grammar.specs.Grammar.{max_rules};
ghost use Rattle.reader.specs.Code.Lines.{RuleOfLine};

use crate::ReadText;

// The first line whose rules end after a rule.
fn ends_after(ends: &[u8], rule: usize) -> Option<usize>
    ensures { result ≡ position (λ end. nat_lt rule end) ends.now }
{
    ends.iter().position(|&end| rule < usize::from(end))
}

impl ReadText {
    // The line that a rule is of. A line's own rule has the line's number, and helper rules are numbered after those, line by line.
    // kept: the count of lines and no None for a number that no line has, since RuleOfLine says so.
    #[tactic(auto, using(crate::proofs::Owning::owner_found))]
    pub fn line_of(&self, rule: usize) -> usize
        requires { self.now.lines ≤ max_rules }
        ensures { RuleOfLine self.now.lines self.now.ends rule result }
    {
        if rule < self.lines {
            return rule;
        }
        ends_after(&self.ends[..self.lines], rule).unwrap_or(self.lines)
    }
}
