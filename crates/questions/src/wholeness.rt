// Whether no tuple is free in a switch below the top.
ghost use Rattle.std.specs.Prelude.{◌≡◌, ℕ, ◌<◌, true, MatchBool};
ghost use Rattle.gmap.specs.Map.{Free, Whole};

use gmap::map::GMap;
use gmap::tuple::Tuple;

// Whether a tuple is linked in every switch below the top.
fn linked_below<C: GMap>(tuple: &Tuple<C>) -> bool
    ensures { MatchBool result ((i : ℕ) → i < (C.Reads.meaning tuple.now.map.now).top → Free (C.Reads.meaning tuple.now.map.now) i tuple.now.slot → ⊥) ((i : ℕ) × (i < (C.Reads.meaning tuple.now.map.now).top) × Free (C.Reads.meaning tuple.now.map.now) i tuple.now.slot) }
{
    for i in 0..tuple.map.top() {
        if tuple.partner(i).slot == tuple.slot {
            return false;
        }
    }
    true
}

// Whether the map is whole.
// The loop is that of lawful: one over a closure would say what it answers at every tuple, and an iterator of tuples
// which slots it yields, each in more words than the loop has.
pub fn whole<C: GMap>(map: &C) -> bool
    ensures { MatchBool result (Whole (C.Reads.meaning map.now)) (Whole (C.Reads.meaning map.now) → ⊥) }
{
    for t in 0..map.size() {
        if map.is_live(t) && !linked_below(&Tuple { map, slot: t }) {
            return false;
        }
    }
    true
}
