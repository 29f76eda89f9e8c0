// Tying the tuples of the edge to the new ones in switch 0.
ghost use Rattle.std.specs.Prelude.{◌≡◌, true, MatchResult, ◌≢◌};
ghost use Rattle.gmap.specs.Map.{Free};
ghost use Rattle.splitting.specs.Edges.{count, Tieable};
ghost use Rattle.splitting.specs.Stages.{Retied, Ended};

use crate::edge::Edge;
use gmap::map::GMapMut;
use gmap::refusal::Refusal;

// Ties x in switch 0 to y, which is free in it, in place of its partner.
// The board changes, so x and y are bare slots: a `Tuple` would borrow it.
fn tie_end<B: GMapMut>(board: &mut B, x: u16, y: u16) -> Result<(), Refusal>
    requires left { (B.Reads.meaning board.old).live x ≡ true }
    requires right { (B.Reads.meaning board.old).live y ≡ true }
    requires apart { x ≢ y }
    requires free { Free (B.Reads.meaning board.old) 0 y }
    ensures { MatchResult result (λ _. Retied x y (B.Reads.meaning board.old) (B.Reads.meaning board.new)) (λ _. ⊥) }
{
    let partner = board.partner(0, x)?;
    if partner != x {
        board.untie(0, x)?;
    }
    board.tie(0, x, y)
}

// Ties each tuple of the edge in switch 0 to its new tuple.
pub fn tie_ends<B: GMapMut>(board: &mut B, edge: &Edge) -> Result<(), Refusal>
    requires { Tieable (B.Reads.meaning board.old) edge.now }
    ensures { MatchResult result (λ _. Ended (B.Reads.meaning board.old) edge.now (count edge.now) (B.Reads.meaning board.new)) (λ _. ⊥) }
{
    for x in edge.members {
        tie_end(board, *x, edge.beside(*x))?;
    }
    Ok(())
}
