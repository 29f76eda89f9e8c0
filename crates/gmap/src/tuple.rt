// A tuple of a map, from which its partners are reached.
ghost use Rattle.std.specs.Prelude.{◌≡◌, ◌≤◌, true};
ghost use Rattle.gmap.specs.Map.{Map};
ghost use Rattle.gmap.specs.Acts.{tuple_checks};
ghost use Rattle.gmap.specs.Outcome.{Outcome};

use crate::map::GMap;
use crate::refusal::Refusal;

// A slot that holds a tuple, with the map that it is a slot of.
#[derive(Drop)]
pub struct Tuple<'m, C: GMap> {
    pub map: &'m C,
    pub slot: u16,
    ghost live: { (C.Reads.meaning map.now).live slot ≡ true },
}

impl<'m, C: GMap> Tuple<'m, C> {
    // The tuple at slot t.
    pub fn at(map: &'m C, t: u16) -> Result<Self, Refusal>
        ensures { Outcome (tuple_checks (C.Reads.meaning map.now) t) (λ x. (x.map.now ≡ map.now) × (x.slot ≡ t)) (Unit {0}) result }
    {
        if t >= map.size() {
            return Err(Refusal::NoSlot);
        }
        if !map.is_live(t) {
            return Err(Refusal::Vacant);
        }
        Ok(Tuple { map, slot: t })
    }

    // Its partner in a switch that there is. A switch is a bare number, so that there is one stands in contracts:
    // a type for it would carry the map beside the tuple once more.
    pub fn partner(&self, i: u16) -> Self
        requires { i ≤ (C.Reads.meaning self.now.map.now).top }
        ensures map { result.map ≡ self.now.map }
        ensures slot { result.slot ≡ (C.Reads.meaning self.now.map.now).partner i self.now.slot }
    {
        let slot = self.map.partner(i, self.slot).unwrap();
        Tuple {
            map: self.map,
            slot,
        }
    }
}
