// A cell of a map, and the walks across it.
ghost use Rattle.std.specs.Prelude.{◌≡◌, ◌<◌, ◌≤◌, length, MatchBool};
ghost use Rattle.removal.specs.Crossing.{In, Lands};
ghost use Rattle.removal.specs.Stages.{Ranks, Celled, Twists, Bridged};

use gmap::map::GMap;
use gmap::tuple::Tuple;
use questions::commute;

// An i-cell of a map to be crossed: its tuples as a list, with the place there of each.
// A search has a test like `has` over the lists that it fills, and a split an edge with places too; each knows other facts of them.
#[derive(Drop)]
pub struct Crossing<'a, C: GMap> {
    pub map: &'a C,
    pub i: u16,
    pub members: &'a [u16],
    pub ranks: &'a [u16],
    ghost celled: { Celled (C.Reads.meaning map.now) i members.now },
    ghost ranked: { Ranks members.now ranks.now },
    ghost deep: { (C.Reads.meaning map.now).size ≤ length ranks.now },
}

impl<'a, C: GMap> Crossing<'a, C> {
    // Whether slot x is in the cell.
    fn has(&self, x: u16) -> bool
        requires { x < (C.Reads.meaning self.now.map.now).size }
        ensures { let is_in = In self.now.members.now x in MatchBool result is_in (is_in → ⊥) }
    {
        let rank = self.ranks[x as usize] as usize;
        rank < self.members.len() && self.members[rank] == x
    }

    // Whether the two switches above i lead from some tuple of the cell to different tuples in their two orders.
    pub fn twisted(&self) -> bool
        ensures { let twists = Twists (C.Reads.meaning self.now.map.now) self.now.i self.now.members.now in MatchBool result twists (twists → ⊥) }
    {
        if self.i + 2 > self.map.top() {
            return false;
        }
        for x in self.members {
            let tuple = Tuple {
                map: self.map,
                slot: *x,
            };
            if !commute(&tuple, self.i + 1, self.i + 2) {
                return true;
            }
        }
        false
    }

    // Where the walk across the cell leads that starts at x. What is in the cell has none: it is answered itself.
    // A walk that comes back to x leads to x as well: neither gets a link, so an Option would only be taken apart again.
    // The tuples that a walk meets in the cell are different, so it is out after as many steps as the cell has tuples.
    fn walk(&self, x: &Tuple<'a, C>) -> u16
        requires { x.now.map ≡ self.now.map }
        ensures { Lands (C.Reads.meaning self.now.map.now) self.now.i self.now.members.now x.now.slot result }
    {
        if self.has(x.slot) {
            return x.slot;
        }
        let mut y = x.partner(self.i);
        for _ in self.members {
            if !self.has(y.slot) {
                return y.slot;
            }
            y = y.partner(self.i + 1).partner(self.i);
        }
        y.slot
    }

    // Lists the tuples beside the cell whose walks lead to others, and writes to `ends` where each leads.
    // They are counted: not every tuple takes a place.
    pub fn bridge<'b>(&self, borders: &'b mut [u16], ends: &mut [u16]) -> &'b [u16]
        requires borders { (C.Reads.meaning self.now.map.now).size ≤ length borders.old }
        requires ends { (C.Reads.meaning self.now.map.now).size ≤ length ends.old }
        ensures { let xs = self.now.members.now in Bridged (C.Reads.meaning self.now.map.now) self.now.i xs (length xs) (length result.now) result.now ends.new }
    {
        let mut count = 0;
        for a in self.members {
            let inside = Tuple {
                map: self.map,
                slot: *a,
            };
            let x = inside.partner(self.i);
            let y = self.walk(&x);
            if x.slot != y {
                borders[count] = x.slot;
                ends[x.slot as usize] = y;
                count += 1;
            }
        }
        &borders[..count]
    }
}
