// The far orbit of a tuple, which a join or a part changes as a whole.
ghost use Rattle.std.specs.Prelude.{◌≡◌, ◌≤◌, length};
ghost use Rattle.gmap.specs.Map.{Far};
ghost use Rattle.questions.specs.Search.{Collected};

use super::collect;
use crate::switches::Switches;
use gmap::map::GMap;
use gmap::tuple::Tuple;

// Collects the orbit of a tuple under the switches far from i in front of the list, and answers how many tuples it has.
// A step of join and part, which know the switch. What the places hold afterwards is free, and so is the rest of the list.
// The two are lent apart, since a join keeps its lists and uses the places again; how much of a list counts is the answer.
pub fn far_orbit<C: GMap>(tuple: &Tuple<C>, i: u16, list: &mut [u16], places: &mut [u16]) -> u16
    requires switch { i ≤ (C.Reads.meaning tuple.now.map.now).top }
    requires room { length list.old ≡ (C.Reads.meaning tuple.now.map.now).size }
    requires places { length list.old ≤ length places.old }
    ensures { Collected (C.Reads.meaning tuple.now.map.now) (Far i) tuple.now.slot result list.new }
{
    collect(tuple, Switches::FarFrom(i), list, places)
}
