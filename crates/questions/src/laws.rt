// Whether far switches commute at every tuple.
ghost use Rattle.std.specs.Prelude.{◌≡◌, ℕ, ◌+◌, ◌≤◌, true, MatchBool};
ghost use Rattle.gmap.specs.Map.{Lawful};
ghost use Rattle.questions.specs.Laws.{Commute, LawfulAt};

use gmap::map::GMap;
use gmap::tuple::Tuple;

// Whether switches i and j lead from a tuple to the same one in either order.
// A step of lawful and of a removal, which know the switches.
pub fn commute<C: GMap>(tuple: &Tuple<C>, i: u16, j: u16) -> bool
    requires first { i ≤ (C.Reads.meaning tuple.now.map.now).top }
    requires second { j ≤ (C.Reads.meaning tuple.now.map.now).top }
    ensures { MatchBool result (Commute (C.Reads.meaning tuple.now.map.now) i j tuple.now.slot) (Commute (C.Reads.meaning tuple.now.map.now) i j tuple.now.slot → ⊥) }
{
    tuple.partner(j).partner(i).slot == tuple.partner(i).partner(j).slot
}

// Whether switch i commutes at a tuple with those that are two or more above it. (That i is a switch is a clause, as in Tuple::partner.)
fn commutes_above<C: GMap>(tuple: &Tuple<C>, i: u16) -> bool
    requires { i ≤ (C.Reads.meaning tuple.now.map.now).top }
    ensures { MatchBool result ((j : ℕ) → i + 2 ≤ j → Commute (C.Reads.meaning tuple.now.map.now) i j tuple.now.slot) ((j : ℕ) × (i + 2 ≤ j) × (Commute (C.Reads.meaning tuple.now.map.now) i j tuple.now.slot → ⊥)) }
{
    for j in i + 2..tuple.map.top() + 1 {
        if !commute(tuple, i, j) {
            return false;
        }
    }
    true
}

// Whether all far switches commute at a tuple.
fn lawful_at<C: GMap>(tuple: &Tuple<C>) -> bool
    ensures { MatchBool result (LawfulAt (C.Reads.meaning tuple.now.map.now) tuple.now.slot) (LawfulAt (C.Reads.meaning tuple.now.map.now) tuple.now.slot → ⊥) }
{
    for i in 0..tuple.map.top() + 1 {
        if !commutes_above(tuple, i) {
            return false;
        }
    }
    true
}

// Whether the map is lawful. The loop is that of whole, which says why it is written out.
pub fn lawful<C: GMap>(map: &C) -> bool
    ensures { MatchBool result (Lawful (C.Reads.meaning map.now)) (Lawful (C.Reads.meaning map.now) → ⊥) }
{
    for t in 0..map.size() {
        if map.is_live(t) && !lawful_at(&Tuple { map, slot: t }) {
            return false;
        }
    }
    true
}
