// Taking a cell out of a map.
ghost use Rattle.std.specs.Prelude.{◌≡◌, ◌*◌, ◌<◌, length, MatchResult};
ghost use Rattle.building.specs.Tying.{PairsOf, Tieable};
ghost use Rattle.gmap.specs.Building.{AllTied};
ghost use Rattle.gmap.specs.Map.{Same};
ghost use Rattle.gmap.specs.Outcome.{Outcome};
ghost use Rattle.gmap.specs.Removing.{remove_checks, Removed};
ghost use Rattle.removal.specs.Stages.{Celled, Bridged, TakenOut};

use crate::clear::{close_all, cut_off};
use crate::crossing::Crossing;
use building::tie_pairs;
use gmap::map::GMapMut;
use gmap::refusal::Refusal;
use questions::cell;

// Ties the ends of the walks to their mates; there may be none.
fn tie_ends<B: GMapMut>(
    board: &mut B,
    i: u16,
    borders: &[u16],
    ends: &[u16],
) -> Result<u16, Refusal>
    requires { 0 < length borders.now → Tieable (B.Reads.meaning board.old) i borders.now (length borders.now) ends.now }
    ensures { MatchResult result (λ n. AllTied (B.Reads.meaning board.old) i (PairsOf borders.now (length borders.now) ends.now) n (B.Reads.meaning board.new)) (λ _. ⊥) }
{
    if borders.is_empty() {
        return Ok(0);
    }
    tie_pairs(board, i, borders, ends)
}

// Takes the tuples of a cell out, and ties each tuple beside it to the one that its walk across the cell leads to.
fn take_out<B: GMapMut>(
    board: &mut B,
    i: u16,
    members: &[u16],
    borders: &[u16],
    ends: &[u16],
) -> Result<(), Refusal>
    requires cell { Celled (B.Reads.meaning board.old) i members.now }
    requires bridges { Bridged (B.Reads.meaning board.old) i members.now (length members.now) (length borders.now) borders.now ends.now }
    requires ends { length ends.now ≡ (B.Reads.meaning board.old).size }
    ensures { MatchResult result (λ _. TakenOut (B.Reads.meaning board.old) i members.now (B.Reads.meaning board.new)) (λ _. ⊥) }
{
    cut_off(board, members)?;
    tie_ends(board, i, borders, ends)?;
    close_all(board, members)
}

// Takes the i-cell of t out of the map, and answers how many tuples it had. The tuples around it become partners across it.
// What the scratch holds afterwards is free, unless it is too short: then it is as it was.
// Its scratch is tested and cut here: a function that refused or cut for all could not say that a short one is as it was.
pub fn remove<B: GMapMut>(
    board: &mut B,
    i: u16,
    t: u16,
    scratch: &mut [u16],
) -> Result<u16, Refusal>
    ensures outcome { Outcome (remove_checks (B.Reads.meaning board.old) (length scratch.old) i t) (λ n. Removed (B.Reads.meaning board.old) i t n (B.Reads.meaning board.new)) (Same (B.Reads.meaning board.new) (B.Reads.meaning board.old)) result }
    ensures spared { length scratch.old < 4 * (B.Reads.meaning board.old).size → scratch.new ≡ scratch.old }
{
    let size = board.size() as usize;
    if scratch.len() < 4 * size {
        return Err(Refusal::Short);
    }
    if i >= board.top() {
        return Err(Refusal::NoSwitch);
    }
    let (list, rest) = scratch.split_at_mut(size);
    let (ranks, rest) = rest.split_at_mut(size);
    let (ends, borders) = rest.split_at_mut(size);
    let count = cell(board, i, t, list, ranks, borders)?;
    let members = &list[..count as usize];
    let crossing = Crossing {
        map: board,
        i,
        members,
        ranks,
    };
    if crossing.twisted() {
        return Err(Refusal::Twisted);
    }
    let borders = crossing.bridge(borders, ends);
    take_out(board, i, members, borders, ends)?;
    Ok(count)
}
