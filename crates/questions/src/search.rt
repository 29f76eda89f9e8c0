// The one search of an orbit, for every map and every set of switches.
ghost use Rattle.std.specs.Prelude.{◌≡◌, ◌+◌, ◌^◌, ◌<◌, ◌≤◌, length, take, MatchBool};
ghost use Rattle.gmap.specs.Asking.{Short};
ghost use Rattle.gmap.specs.Listing.{Among, Listed};
ghost use Rattle.gmap.specs.Orbits.{Orbit};
ghost use Rattle.questions.specs.Search.{Kept, Added, Spread, Collected};
ghost use Rattle.questions.specs.Via.{via};

pub mod cell;
pub mod cells;
pub mod far;
pub mod orbit;

use crate::switches::Switches;
use gmap::map::GMap;
use gmap::tuple::Tuple;

// Whether the scratch or the list is too short for a map. That a short scratch stays as it was is what each call promises
// of its own argument: a slice that is lent has no type to say it, and a function that cut the scratch, or refused,
// could not say it either, since its answer would hold the loan. So each call tests its scratch and cuts it.
fn too_short<C: GMap>(map: &C, scratch: usize, out: usize) -> bool
    ensures { MatchBool result (Short (C.Reads.meaning map.now) scratch out) (Short (C.Reads.meaning map.now) scratch out → ⊥) }
{
    let size = map.size() as usize;
    scratch < 4 * size || out < size
}

// The slots found so far: in front of the list in the order in which they came, and in places the place of each.
// A slot is found if its place is below the count and the list has it there, so the memory is not cleared first.
// The memory is lent, so these are two slices with a count, and how much of them counts is what the search answers.
// Each of the two has a lifetime of its own: with one for both, a caller would not know what the list holds in the end.
// That the list has just as many places as a map has slots is asked where a tuple comes in: it is the tuple that has the map.
#[derive(Drop)]
struct Found<'l, 'p> {
    list: &'l mut [u16],
    places: &'p mut [u16],
    count: u16,
    ghost kept: { Kept list.now places.now count },
}

impl<'l, 'p> Found<'l, 'p> {
    // None yet, in memory with a place for each slot of the list.
    fn new(list: &'l mut [u16], places: &'p mut [u16]) -> Self
        requires small { length list.old < 2 ^ 16 }
        requires deep { length list.old ≤ length places.old }
        ensures list { result.list.now ≡ list.old }
        ensures same_list { result.list.ghost_name ≡ list.entry.ghost_name }
    {
        Found {
            list,
            places,
            count: 0,
        }
    }

    // Those found, in the order in which they came.
    fn slots(&self) -> &[u16]
        ensures { result.now ≡ take self.now.count self.now.list.now }
    {
        &self.list[..self.count as usize]
    }

    // Whether slot x is found. (A removal has the like of a cell, and knows other facts of it.)
    fn has(&self, x: u16) -> bool
        requires { x < length self.now.list.now }
        ensures { MatchBool result (Among self.now.list.now self.now.count x) (Among self.now.list.now self.now.count x → ⊥) }
    {
        let place = self.places[x as usize];
        place < self.count && self.list[place as usize] == x
    }

    // Adds slot x, unless it is found already.
    fn add(&mut self, x: u16)
        requires { x < length self.old.list.now }
        ensures set { Added x self.old.list.now self.old.count self.new.list.now self.new.count }
        ensures same_list { self.new.list.ghost_name ≡ self.old.list.ghost_name }
    {
        if self.has(x) {
            return;
        }
        self.list[self.count as usize] = x;
        self.places[x as usize] = self.count;
        self.count += 1;
    }

    // Adds the partners of a tuple in the switches.
    fn expand<C: GMap>(&mut self, tuple: &Tuple<C>, switches: Switches)
        requires { length self.old.list.now ≡ (C.Reads.meaning tuple.now.map.now).size }
        ensures set { Spread (C.Reads.meaning tuple.now.map.now) (via switches) tuple.now.slot ((C.Reads.meaning tuple.now.map.now).top + 1) self.old.list.now self.old.count self.new.list.now self.new.count }
        ensures same_list { self.new.list.ghost_name ≡ self.old.list.ghost_name }
    {
        for j in 0..tuple.map.top() + 1 {
            if switches.has(j) {
                self.add(tuple.partner(j).slot);
            }
        }
    }

    // Finds the orbit of a tuple under the switches, and nothing else.
    fn gather<C: GMap>(&mut self, tuple: &Tuple<C>, switches: Switches)
        requires { length self.old.list.now ≡ (C.Reads.meaning tuple.now.map.now).size }
        ensures long { length self.new.list.now ≡ length self.old.list.now }
        ensures orbit { Collected (C.Reads.meaning tuple.now.map.now) (via switches) tuple.now.slot self.new.count self.new.list.now }
        ensures same_list { self.new.list.ghost_name ≡ self.old.list.ghost_name }
    {
        let map = tuple.map;
        self.count = 0;
        self.add(tuple.slot);
        let mut done = 0;
        // by index, since the list grows while it is walked
        while done < self.count {
            let slot = self.list[done as usize];
            self.expand(&Tuple { map, slot }, switches);
            done += 1;
        }
    }

    // Writes those found upwards, and answers how many they are.
    fn rise(&self, out: &mut [u16]) -> u16
        requires { length self.now.list.now ≤ length out.old }
        ensures { Listed (Among self.now.list.now self.now.count) result out.old out.new }
    {
        let mut written: u16 = 0;
        // Not every slot takes a place, so the places are counted: how many there are is the answer.
        for x in 0..self.list.len() as u16 {
            if self.has(x) {
                out[written as usize] = x;
                written += 1;
            }
        }
        written
    }

    // Writes the orbit of a tuple under the switches upwards, and answers how many tuples it has.
    fn list_upwards<C: GMap>(
        &mut self,
        tuple: &Tuple<C>,
        switches: Switches,
        out: &mut [u16],
    ) -> u16
        requires size { length self.old.list.now ≡ (C.Reads.meaning tuple.now.map.now).size }
        requires room { length self.old.list.now ≤ length out.old }
        ensures { Listed (Orbit (C.Reads.meaning tuple.now.map.now) (via switches) tuple.now.slot) result out.old out.new }
    {
        self.gather(tuple, switches);
        self.rise(out)
    }
}

// Collects the orbit of a tuple under the switches in front of the list, and answers how many tuples it has.
fn collect<C: GMap>(
    tuple: &Tuple<C>,
    switches: Switches,
    list: &mut [u16],
    places: &mut [u16],
) -> u16
    requires room { length list.old ≡ (C.Reads.meaning tuple.now.map.now).size }
    requires places { length list.old ≤ length places.old }
    ensures { Collected (C.Reads.meaning tuple.now.map.now) (via switches) tuple.now.slot result list.new }
{
    let mut found = Found::new(list, places);
    found.gather(tuple, switches);
    found.count
}
