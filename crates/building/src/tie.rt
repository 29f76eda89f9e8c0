// Tying two far orbits.
ghost use Rattle.std.specs.Prelude.{◌≡◌, ◌*◌, ◌<◌, length, MatchResult};
ghost use Rattle.gmap.specs.Building.{join_checks, AllTied, Joined};
ghost use Rattle.gmap.specs.Map.{Same};
ghost use Rattle.gmap.specs.Outcome.{Outcome};
ghost use Rattle.building.specs.Tying.{PairsOf, Tieable};

use crate::seam::Seam;
use gmap::map::GMapMut;
use gmap::refusal::Refusal;

// Ties the tuples of a side to their mates; answers how many links that makes.
// Where both sides are one orbit, a pair is met from both its ends, and is tied and counted at the first.
// A step of join and of a removal, which know that the tuples and their mates are free.
pub fn tie_pairs<B: GMapMut>(
    board: &mut B,
    i: u16,
    side: &[u16],
    mates: &[u16],
) -> Result<u16, Refusal>
    requires { Tieable (B.Reads.meaning board.old) i side.now (length side.now) mates.now }
    ensures { MatchResult result (λ n. AllTied (B.Reads.meaning board.old) i (PairsOf side.now (length side.now) mates.now) n (B.Reads.meaning board.new)) (λ _. ⊥) }
{
    let mut links = 0;
    for x in side {
        let partner = board.partner(i, *x)?;
        if partner == *x {
            board.tie(i, *x, mates[*x as usize])?;
            links += 1;
        }
    }
    Ok(links)
}

// Ties t and u in switch i, and with them their partners in all far switches; answers how many links that makes.
// What the scratch holds afterwards is free, unless it is too short: then it is as it was.
// Its scratch is tested and cut here: a function that refused or cut for all could not say that a short one is as it was.
pub fn join<B: GMapMut>(
    board: &mut B,
    i: u16,
    t: u16,
    u: u16,
    scratch: &mut [u16],
) -> Result<u16, Refusal>
    ensures outcome { Outcome (join_checks (B.Reads.meaning board.old) (length scratch.old) i t u) (λ n. Joined (B.Reads.meaning board.old) i t u n (B.Reads.meaning board.new)) (Same (B.Reads.meaning board.new) (B.Reads.meaning board.old)) result }
    ensures spared { length scratch.old < 4 * (B.Reads.meaning board.old).size → scratch.new ≡ scratch.old }
{
    let size = board.size() as usize;
    if scratch.len() < 4 * size {
        return Err(Refusal::Short);
    }
    let seam = Seam::new(board, i, t, u)?;
    let (left, rest) = scratch.split_at_mut(size);
    let (right, rest) = rest.split_at_mut(size);
    let (mates, places) = rest.split_at_mut(size);
    let side = seam.pair_sides(left, right, mates, places)?;
    tie_pairs(board, i, side, mates)
}
