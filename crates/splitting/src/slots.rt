// The slots of the new tuples: whether they are vacant, and opening them.
ghost use Rattle.std.specs.Prelude.{◌≡◌, ℕ, ◌+◌, ◌<◌, ◌≤◌, true, ◌⊎◌, MatchBool, MatchResult};
ghost use Rattle.splitting.specs.Edges.{count, Vacancies};
ghost use Rattle.splitting.specs.Stages.{Opened};

use crate::edge::Edge;
use gmap::map::{GMap, GMapMut};
use gmap::refusal::Refusal;

// Whether the slots from f on, as many as are wanted, are there and vacant.
pub fn all_vacant<C: GMap>(map: &C, f: u16, wanted: u16) -> bool
    ensures { MatchBool result (Vacancies (C.Reads.meaning map.now) f wanted) ((x : ℕ) × (f ≤ x) × (x < f + wanted) × (((C.Reads.meaning map.now).size ≤ x) ⊎ ((C.Reads.meaning map.now).live x ≡ true))) }
{
    for x in f as u32..f as u32 + wanted as u32 {
        if x >= map.size() as u32 || map.is_live(x as u16) {
            return false;
        }
    }
    true
}

// Opens the slots of the new tuples.
pub fn open_all<B: GMapMut>(board: &mut B, edge: &Edge) -> Result<(), Refusal>
    requires { Vacancies (B.Reads.meaning board.old) edge.now.first (count edge.now) }
    ensures { MatchResult result (λ _. Opened edge.now.first (count edge.now) (B.Reads.meaning board.old) (B.Reads.meaning board.new)) (λ _. ⊥) }
{
    for x in edge.members {
        board.open_slot(edge.beside(*x))?;
    }
    Ok(())
}
