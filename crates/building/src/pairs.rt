// The pairs of a join: each tuple of the two sides with its mate.
ghost use Rattle.std.specs.Prelude.{◌≡◌, ◌+◌, ◌<◌, ◌≤◌, true, length, MatchOption, MatchResult, slice_index};
ghost use Rattle.gmap.specs.Building.{Fits};
ghost use Rattle.gmap.specs.Map.{Far};
ghost use Rattle.gmap.specs.declared.refusal.Refusal.TheVariants.{Misfit};
ghost use Rattle.questions.specs.Search.{Collected};
ghost use Rattle.building.specs.Mates.{Couples, Clashes, OnSides, Known, Blank, Mates, Followed, Matched};

use crate::seam::Seam;
use gmap::map::GMap;
use gmap::refusal::Refusal;
use gmap::switches::far;
use gmap::tuple::Tuple;

// What a table of mates has at a tuple whose mate is not known yet.
// The table is lent as numbers, with no room for an Option; a look makes one of it.
pub(crate) const UNKNOWN: u16 = 65535;

// The mate of x, if it is known.
fn mate(mates: &[u16], x: u16) -> Option<u16>
    requires { x < length mates.now }
    ensures { MatchOption result (slice_index mates.now x ≡ 65535) (λ y. (y ≡ slice_index mates.now x) × Known mates.now x) }
{
    match mates[x as usize] {
        UNKNOWN => None,
        y => Some(y),
    }
}

// Makes x and y mates, unless they are; one that has another mate is a misfit.
fn couple(mates: &mut [u16], x: u16, y: u16) -> Result<(), Refusal>
    requires first { x < length mates.old }
    requires second { y < length mates.old }
    ensures { MatchResult result (λ _. Couples x y mates.old mates.new) (λ e. (e ≡ Misfit) × Clashes x y mates.old) }
{
    if mates[x as usize] == y {
        return Ok(());
    }
    let (None, None) = (mate(mates, x), mate(mates, y)) else {
        return Err(Refusal::Misfit);
    };
    mates[x as usize] = y;
    mates[y as usize] = x;
    Ok(())
}

impl<C: GMap> Seam<'_, C> {
    // Couples the partners of x and of its mate in every far switch.
    fn follow(&self, x: u16, mates: &mut [u16]) -> Result<(), Refusal>
        requires mates { Mates (C.Reads.meaning self.now.map.now) self.now.i self.now.t self.now.u mates.old }
        requires side { OnSides (C.Reads.meaning self.now.map.now) self.now.i self.now.t self.now.u x }
        requires known { Known mates.old x }
        ensures { MatchResult result (λ _. Followed (C.Reads.meaning self.now.map.now) self.now.i self.now.t self.now.u x ((C.Reads.meaning self.now.map.now).top + 1) mates.old mates.new) (λ e. (e ≡ Misfit) × (Fits (C.Reads.meaning self.now.map.now) self.now.i self.now.t self.now.u → ⊥)) }
    {
        let here = Tuple {
            map: self.map,
            slot: x,
        };
        let mate = Tuple {
            map: self.map,
            slot: mates[x as usize],
        };
        for j in 0..self.map.top() + 1 {
            if far(self.i, j) {
                couple(mates, here.partner(j).slot, mate.partner(j).slot)?;
            }
        }
        Ok(())
    }

    // Finds the mates of both sides from the tuples of one, in the order in which these were found.
    pub(crate) fn match_sides(&self, side: &[u16], mates: &mut [u16]) -> Result<(), Refusal>
        requires side { Collected (C.Reads.meaning self.now.map.now) (Far self.now.i) self.now.t (length side.now) side.now }
        requires blank { Blank (C.Reads.meaning self.now.map.now) self.now.i self.now.t self.now.u mates.old }
        ensures { MatchResult result (λ _. Matched (C.Reads.meaning self.now.map.now) self.now.i self.now.t self.now.u mates.new) (λ e. (e ≡ Misfit) × (Fits (C.Reads.meaning self.now.map.now) self.now.i self.now.t self.now.u → ⊥)) }
    {
        couple(mates, self.t, self.u)?;
        for x in side {
            self.follow(*x, mates)?;
        }
        Ok(())
    }
}
