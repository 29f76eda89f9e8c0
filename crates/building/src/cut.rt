// Cutting the links at a far orbit.
ghost use Rattle.std.specs.Prelude.{◌≡◌, ◌*◌, ◌<◌, ◌≤◌, true, length, MatchResult};
ghost use Rattle.gmap.specs.Building.{part_checks, AllCut, Parted};
ghost use Rattle.gmap.specs.Listing.{Among};
ghost use Rattle.gmap.specs.Map.{Same};
ghost use Rattle.gmap.specs.Outcome.{Outcome};
ghost use Rattle.building.specs.Sides.{Side};

use crate::side::far_side;
use gmap::map::GMapMut;
use gmap::refusal::Refusal;
use gmap::tuple::Tuple;

// Unties every link in switch i at the tuples of a side, and answers how many there were.
// A step of part and of a removal, which know the tuples and the switch.
pub fn cut_links<B: GMapMut>(board: &mut B, i: u16, side: &[u16]) -> Result<u16, Refusal>
    requires { Side (B.Reads.meaning board.old) i side.now }
    ensures { MatchResult result (λ n. AllCut (B.Reads.meaning board.old) i (Among side.now (length side.now)) n (B.Reads.meaning board.new)) (λ _. ⊥) }
{
    let mut links = 0;
    for x in side {
        let partner = board.partner(i, *x)?;
        if partner != *x {
            board.untie(i, *x)?;
            links += 1;
        }
    }
    Ok(links)
}

// Unties every link in switch i at the far orbit of t, and answers how many were cut.
// What the scratch holds afterwards is free, unless it is too short: then it is as it was.
// Its scratch is tested and cut here: a function that refused or cut for all could not say that a short one is as it was.
pub fn part<B: GMapMut>(board: &mut B, i: u16, t: u16, scratch: &mut [u16]) -> Result<u16, Refusal>
    ensures outcome { Outcome (part_checks (B.Reads.meaning board.old) (length scratch.old) i t) (λ n. Parted (B.Reads.meaning board.old) i t n (B.Reads.meaning board.new)) (Same (B.Reads.meaning board.new) (B.Reads.meaning board.old)) result }
    ensures spared { length scratch.old < 4 * (B.Reads.meaning board.old).size → scratch.new ≡ scratch.old }
{
    let size = board.size() as usize;
    if scratch.len() < 4 * size {
        return Err(Refusal::Short);
    }
    if board.partner(i, t)? == t {
        return Err(Refusal::NotLinked);
    }
    let (list, places) = scratch.split_at_mut(size);
    let side = far_side(
        &Tuple {
            map: board,
            slot: t,
        },
        i,
        list,
        places,
    );
    cut_links(board, i, side)
}
