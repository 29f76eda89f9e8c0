// Making a tuple at a slot, and unmaking it.
ghost use Rattle.std.specs.Prelude.{◌≡◌};
ghost use Rattle.gmap.specs.Acts.{open_checks, opened, close_checks, closed};
ghost use Rattle.gmap.specs.Map.{Same};
ghost use Rattle.gmap.specs.Outcome.{Outcome};

use gmap::map::GMapMut;
use gmap::refusal::Refusal;

// Makes a tuple at slot t, free in every switch.
pub fn make<B: GMapMut>(board: &mut B, t: u16) -> Result<(), Refusal>
    ensures { Outcome (open_checks (B.Reads.meaning board.old) t) (λ _. Same (B.Reads.meaning board.new) (opened (B.Reads.meaning board.old) t)) (Same (B.Reads.meaning board.new) (B.Reads.meaning board.old)) result }
{
    board.open_slot(t)
}

// Makes slot t vacant, if its tuple is free in every switch.
pub fn unmake<B: GMapMut>(board: &mut B, t: u16) -> Result<(), Refusal>
    ensures { Outcome (close_checks (B.Reads.meaning board.old) t) (λ _. Same (B.Reads.meaning board.new) (closed (B.Reads.meaning board.old) t)) (Same (B.Reads.meaning board.new) (B.Reads.meaning board.old)) result }
{
    board.close_slot(t)
}
