// Notes, the memo table: what a cell says.
ghost use Rattle.std.specs.Prelude.{◌≡◌};
ghost use Rattle.machine.specs.Verdicts.{note_of};

use crate::Note;

// What a cell says: 0 unseen, 1 open, else 2 more than the number that the note is closed with.
impl From<u32> for Note {
    ghost from_gives = { λ cell note. note ≡ note_of cell };

    #[tactic(auto, unfolding(crate::specs::Verdicts::note_of), using(crate::proofs::RightNotes::closed_note))]
    fn from(cell: u32) -> Note {
        match cell {
            0 => Note::Unseen,
            1 => Note::Open,
            _ => Note::Closed(cell - 2),
        }
    }
}
