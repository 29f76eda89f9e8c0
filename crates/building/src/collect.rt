// The two sides of a join: the far orbits of its tuples.
ghost use Rattle.std.specs.Prelude.{◌≡◌, ℕ, ◌<◌, ◌≤◌, true, length, MatchResult, slice_index};
ghost use Rattle.gmap.specs.Building.{Fits};
ghost use Rattle.gmap.specs.Map.{Far, Free};
ghost use Rattle.gmap.specs.Orbits.{FarOrbit};
ghost use Rattle.gmap.specs.declared.refusal.Refusal.TheVariants.{Misfit};
ghost use Rattle.questions.specs.Search.{Collected};
ghost use Rattle.building.specs.Sides.{Side};
ghost use Rattle.building.specs.Tying.{Collectable, Cleared, Ready};

use crate::pairs::UNKNOWN;
use crate::seam::Seam;
use crate::side::far_side;
use gmap::map::GMap;
use gmap::refusal::Refusal;
use gmap::tuple::Tuple;

impl<C: GMap> Seam<'_, C> {
    // Sees that every tuple of a side is free in the switch, and forgets its mate.
    fn clear_side(&self, side: &[u16], mates: &mut [u16]) -> Result<(), Refusal>
        requires side { Side (C.Reads.meaning self.now.map.now) self.now.i side.now }
        requires long { length mates.old ≡ (C.Reads.meaning self.now.map.now).size }
        ensures { MatchResult result (λ _. Cleared (C.Reads.meaning self.now.map.now) self.now.i side.now (length side.now) mates.old mates.new) (λ e. (e ≡ Misfit) × ((k : ℕ) × (k < length side.now) × (Free (C.Reads.meaning self.now.map.now) self.now.i (slice_index side.now k) → ⊥))) }
    {
        for x in side {
            let tuple = Tuple {
                map: self.map,
                slot: *x,
            };
            if tuple.partner(self.i).slot != *x {
                return Err(Refusal::Misfit);
            }
            mates[*x as usize] = UNKNOWN;
        }
        Ok(())
    }

    // Collects the side of tuple t in front of a list, and clears it.
    fn collect_side<'s>(
        &self,
        t: u16,
        list: &'s mut [u16],
        places: &mut [u16],
        mates: &mut [u16],
    ) -> Result<&'s [u16], Refusal>
        requires { Collectable (C.Reads.meaning self.now.map.now) t list.old places.old mates.old }
        ensures { MatchResult result (λ side. Side (C.Reads.meaning self.now.map.now) self.now.i side.now × Collected (C.Reads.meaning self.now.map.now) (Far self.now.i) t (length side.now) side.now × Cleared (C.Reads.meaning self.now.map.now) self.now.i side.now (length side.now) mates.old mates.new) (λ e. (e ≡ Misfit) × ((x : ℕ) × FarOrbit (C.Reads.meaning self.now.map.now) self.now.i t x × (Free (C.Reads.meaning self.now.map.now) self.now.i x → ⊥))) }
    {
        let tuple = Tuple {
            map: self.map,
            slot: t,
        };
        let side = far_side(&tuple, self.i, list, places);
        self.clear_side(side, mates)?;
        Ok(side)
    }

    // Collects both sides and finds the mates; answers the side of t.
    pub(crate) fn pair_sides<'s>(
        &self,
        left: &'s mut [u16],
        right: &mut [u16],
        mates: &mut [u16],
        places: &mut [u16],
    ) -> Result<&'s [u16], Refusal>
        requires left { Collectable (C.Reads.meaning self.now.map.now) self.now.t left.old places.old mates.old }
        requires right { Collectable (C.Reads.meaning self.now.map.now) self.now.u right.old places.old mates.old }
        ensures { MatchResult result (λ side. Ready (C.Reads.meaning self.now.map.now) self.now.i self.now.t self.now.u side.now mates.new) (λ e. (e ≡ Misfit) × (Fits (C.Reads.meaning self.now.map.now) self.now.i self.now.t self.now.u → ⊥)) }
    {
        let side = self.collect_side(self.t, left, places, mates)?;
        self.collect_side(self.u, right, places, mates)?;
        self.match_sides(side, mates)?;
        Ok(side)
    }
}
