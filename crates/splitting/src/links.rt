// Linking the new tuples among themselves, as the tuples of the edge are linked.
ghost use Rattle.std.specs.Prelude.{◌≡◌, ℕ, ◌+◌, ◌<◌, MatchResult};
ghost use Rattle.gmap.specs.Map.{Free};
ghost use Rattle.splitting.specs.Edges.{under, count, Seated, Linkable};
ghost use Rattle.splitting.specs.Stages.{Linked, AllLinked};

use crate::edge::Edge;
use gmap::map::GMapMut;
use gmap::refusal::Refusal;

// The switch of the edge that switch j of the new vertex mirrors.
fn mirrored(j: u16) -> u16
    ensures { result ≡ under j }
{
    if j == 1 { 0 } else { j }
}

// Links the new tuples in switch j, which is above 0, as those of the edge are in the switch that it mirrors.
// Each link is tied from its lower end.
fn link_new<B: GMapMut>(board: &mut B, j: u16, edge: &Edge) -> Result<(), Refusal>
    requires { Linkable (B.Reads.meaning board.old) j edge.now }
    ensures { MatchResult result (λ _. Linked (B.Reads.meaning board.old) j edge.now (count edge.now) (B.Reads.meaning board.new)) (λ _. ⊥) }
{
    let switch = mirrored(j);
    for x in edge.members {
        let partner = board.partner(switch, *x)?;
        let low = edge.beside(*x);
        let high = edge.beside(partner);
        if low < high {
            board.tie(j, low, high)?;
        }
    }
    Ok(())
}

// Links the new tuples in every switch above 0.
pub fn link_all<B: GMapMut>(board: &mut B, edge: &Edge) -> Result<(), Refusal>
    requires seated { Seated (B.Reads.meaning board.old) edge.now }
    requires free { (i k : ℕ) → k < count edge.now → Free (B.Reads.meaning board.old) i (edge.now.first + k) }
    ensures { MatchResult result (λ _. AllLinked (B.Reads.meaning board.old) edge.now ((B.Reads.meaning board.old).top + 1) (B.Reads.meaning board.new)) (λ _. ⊥) }
{
    for j in 1..board.top() + 1 {
        link_new(board, j, edge)?;
    }
    Ok(())
}
