// The cell of a tuple, listed upwards, with the place of each of its tuples in that list.
ghost use Rattle.std.specs.Prelude.{◌≡◌, ℕ, ◌<◌, ◌≤◌, length, slice_index};
ghost use Rattle.gmap.specs.Asking.{cell_checks};
ghost use Rattle.gmap.specs.Listing.{Listed, Ranked};
ghost use Rattle.gmap.specs.Orbits.{Cell};
ghost use Rattle.gmap.specs.Outcome.{Outcome};
ghost use Rattle.questions.specs.Ranks.{Rankable};

use super::Found;
use crate::switches::Switches;
use gmap::map::GMap;
use gmap::refusal::Refusal;
use gmap::tuple::Tuple;

// The refusals of a cell; else its tuple.
fn admit<C: GMap>(
    map: &C,
    t: u16,
    members: usize,
    ranks: usize,
    spare: usize,
) -> Result<Tuple<C>, Refusal>
    ensures { Outcome (cell_checks (C.Reads.meaning map.now) members ranks spare t) (λ x. (x.map.now ≡ map.now) × (x.slot ≡ t)) (Unit {0}) result }
{
    let size = map.size() as usize;
    if members < size || ranks < size || spare < size {
        return Err(Refusal::Short);
    }
    Tuple::at(map, t)
}

// Writes a cell upwards. The list and the places of the search are free afterwards.
fn write_cell<C: GMap>(
    tuple: &Tuple<C>,
    i: u16,
    list: &mut [u16],
    places: &mut [u16],
    members: &mut [u16],
) -> u16
    requires list { (C.Reads.meaning tuple.now.map.now).size ≤ length list.old }
    requires places { (C.Reads.meaning tuple.now.map.now).size ≤ length places.old }
    requires members { (C.Reads.meaning tuple.now.map.now).size ≤ length members.old }
    ensures { Listed (Cell (C.Reads.meaning tuple.now.map.now) i tuple.now.slot) result members.old members.new }
{
    let list = &mut list[..tuple.map.size() as usize];
    Found::new(list, places).list_upwards(tuple, Switches::AllBut(i), members)
}

// Writes to ranks the place of each member, which rise.
fn rank(members: &[u16], ranks: &mut [u16])
    requires { Rankable members.now ranks.old }
    ensures { (k : ℕ) → k < length members.now → slice_index ranks.new (slice_index members.now k) ≡ k }
{
    for (k, x) in members.iter().enumerate() {
        ranks[*x as usize] = k as u16;
    }
}

// Writes the i-cell of t upwards to `members` and the place of each of its tuples to `ranks`, and answers how many there are.
// Each of the three has to have an entry to a slot. What else they hold afterwards is free: the memory is lent,
// and how much of it counts is the answer.
pub fn cell<C: GMap>(
    map: &C,
    i: u16,
    t: u16,
    members: &mut [u16],
    ranks: &mut [u16],
    spare: &mut [u16],
) -> Result<u16, Refusal>
    ensures { Outcome (cell_checks (C.Reads.meaning map.now) (length members.old) (length ranks.old) (length spare.old) t) (λ n. Ranked (Cell (C.Reads.meaning map.now) i t) n members.new ranks.new) (Unit {0}) result }
{
    let tuple = admit(map, t, members.len(), ranks.len(), spare.len())?;
    let count = write_cell(&tuple, i, spare, ranks, members);
    rank(&members[..count as usize], ranks);
    Ok(count)
}
