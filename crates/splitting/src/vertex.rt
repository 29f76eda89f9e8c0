// A new vertex on an edge.
ghost use Rattle.std.specs.Prelude.{◌≡◌, ◌*◌, ◌<◌, ◌≤◌, length, MatchResult, ◌≢◌};
ghost use Rattle.gmap.specs.Map.{Same};
ghost use Rattle.gmap.specs.Outcome.{Outcome};
ghost use Rattle.gmap.specs.Splitting.{split_checks, SplitAt};
ghost use Rattle.splitting.specs.Edges.{count, Closed, Vacancies, edge_checks};
ghost use Rattle.splitting.specs.Stages.{Grown};

use crate::edge::Edge;
use crate::ends::tie_ends;
use crate::links::link_all;
use crate::slots::{all_vacant, open_all};
use gmap::map::GMapMut;
use gmap::refusal::Refusal;
use questions::cell;

// Puts the new tuples on the edge.
fn grow<B: GMapMut>(board: &mut B, edge: &Edge) -> Result<(), Refusal>
    requires closed { Closed (B.Reads.meaning board.old) edge.now }
    requires vacant { Vacancies (B.Reads.meaning board.old) edge.now.first (count edge.now) }
    ensures { MatchResult result (λ _. Grown edge.now (B.Reads.meaning board.old) (B.Reads.meaning board.new)) (λ _. ⊥) }
{
    open_all(board, edge)?;
    link_all(board, edge)?;
    tie_ends(board, edge)
}

// Splits the edge of t, with memory for its tuples and their places; answers how many new tuples there are.
fn add_vertex<B: GMapMut>(
    board: &mut B,
    t: u16,
    f: u16,
    members: &mut [u16],
    ranks: &mut [u16],
    spare: &mut [u16],
) -> Result<u16, Refusal>
    requires switch { (B.Reads.meaning board.old).top ≢ 0 }
    requires members { (B.Reads.meaning board.old).size ≤ length members.old }
    requires ranks { (B.Reads.meaning board.old).size ≤ length ranks.old }
    requires spare { (B.Reads.meaning board.old).size ≤ length spare.old }
    ensures { Outcome (edge_checks (B.Reads.meaning board.old) t f) (λ n. SplitAt (B.Reads.meaning board.old) t f (f, n) (B.Reads.meaning board.new)) (Same (B.Reads.meaning board.new) (B.Reads.meaning board.old)) result }
{
    let count = cell(board, 1, t, members, ranks, spare)?;
    if !all_vacant(board, f, count) {
        return Err(Refusal::Occupied);
    }
    let edge = Edge {
        members: &members[..count as usize],
        ranks,
        first: f,
    };
    grow(board, &edge)?;
    Ok(count)
}

// Puts a new vertex on the edge of t, with a new tuple beside each tuple of the edge; these are numbered upwards from f on.
// Answers f and how many new tuples there are.
// What the scratch holds afterwards is free, unless it is too short: then it is as it was.
// Its scratch is tested and cut here: a function that refused or cut for all could not say that a short one is as it was.
pub fn split<B: GMapMut>(
    board: &mut B,
    t: u16,
    f: u16,
    scratch: &mut [u16],
) -> Result<(u16, u16), Refusal>
    ensures outcome { Outcome (split_checks (B.Reads.meaning board.old) (length scratch.old) t f) (λ a. SplitAt (B.Reads.meaning board.old) t f a (B.Reads.meaning board.new)) (Same (B.Reads.meaning board.new) (B.Reads.meaning board.old)) result }
    ensures spared { length scratch.old < 4 * (B.Reads.meaning board.old).size → scratch.new ≡ scratch.old }
{
    let size = board.size() as usize;
    if scratch.len() < 4 * size {
        return Err(Refusal::Short);
    }
    if board.top() == 0 {
        return Err(Refusal::NoSwitch);
    }
    let (members, rest) = scratch.split_at_mut(size);
    let (ranks, spare) = rest.split_at_mut(size);
    let count = add_vertex(board, t, f, members, ranks, spare)?;
    Ok((f, count))
}
