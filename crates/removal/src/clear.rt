// Cutting a list of tuples off in every switch, and making its slots vacant.
ghost use Rattle.std.specs.Prelude.{◌≡◌, ◌+◌, length, MatchResult};
ghost use Rattle.building.specs.Sides.{Side};
ghost use Rattle.removal.specs.Crossing.{In};
ghost use Rattle.removal.specs.Stages.{CutBelow, Closable, Closed};

use building::cut_links;
use gmap::map::GMapMut;
use gmap::refusal::Refusal;

// Unties every link at the tuples of a list, switch by switch. The list is a side for switch 0, which every map has.
pub fn cut_off<B: GMapMut>(board: &mut B, list: &[u16]) -> Result<(), Refusal>
    requires { Side (B.Reads.meaning board.old) 0 list.now }
    ensures { MatchResult result (λ _. CutBelow (B.Reads.meaning board.old) (In list.now) ((B.Reads.meaning board.old).top + 1) (B.Reads.meaning board.new)) (λ _. ⊥) }
{
    for j in 0..board.top() + 1 {
        cut_links(board, j, list)?;
    }
    Ok(())
}

// Makes the slots of a list vacant.
pub fn close_all<B: GMapMut>(board: &mut B, list: &[u16]) -> Result<(), Refusal>
    requires { Closable (B.Reads.meaning board.old) list.now }
    ensures { MatchResult result (λ _. Closed (B.Reads.meaning board.old) (In list.now) (B.Reads.meaning board.new)) (λ _. ⊥) }
{
    for x in list {
        board.close_slot(*x)?;
    }
    Ok(())
}
