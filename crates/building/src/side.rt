// The side of a tuple: its far orbit, as a slice.
ghost use Rattle.std.specs.Prelude.{◌≡◌, ◌≤◌, length};
ghost use Rattle.gmap.specs.Map.{Far};
ghost use Rattle.questions.specs.Search.{Collected};
ghost use Rattle.building.specs.Sides.{Side};

use gmap::map::GMap;
use gmap::tuple::Tuple;
use questions::far_orbit;

// Finds the side of a tuple in front of a list.
pub(crate) fn far_side<'s, C: GMap>(
    tuple: &Tuple<C>,
    i: u16,
    list: &'s mut [u16],
    places: &mut [u16],
) -> &'s [u16]
    requires switch { i ≤ (C.Reads.meaning tuple.now.map.now).top }
    requires room { length list.old ≡ (C.Reads.meaning tuple.now.map.now).size }
    requires deep { length list.old ≤ length places.old }
    ensures side { Side (C.Reads.meaning tuple.now.map.now) i result.now }
    ensures collected { Collected (C.Reads.meaning tuple.now.map.now) (Far i) tuple.now.slot (length result.now) result.now }
{
    let count = far_orbit(tuple, i, list, places);
    &list[..count as usize]
}
