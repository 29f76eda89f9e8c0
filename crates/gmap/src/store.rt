// A storage by what it writes: the acts above it are the same for all.
ghost use Rattle.std.specs.Prelude.{◌≡◌, ℕ, ◌<◌, MatchBool};
ghost use Rattle.gmap.specs.Acts.{Couple, marked, tie_checks, tied, untied};
ghost use Rattle.gmap.specs.Map.{Free, Same};
ghost use Rattle.gmap.specs.Outcome.{Outcome};

use crate::map::{GMap, GMapMut, Reads};
use crate::refusal::Refusal;
use crate::tuple::Tuple;

// What a storage writes. It refuses nothing: whoever calls has looked first.
pub trait Store: GMap {
    // Makes slot t, which is linked in no switch, a tuple or vacant.
    fn mark(&mut self, t: u16, live: bool)
        requires slot { t < (Self.Reads.meaning self.old).size }
        requires free { (i : ℕ) → Free (Self.Reads.meaning self.old) i t }
        ensures { Same (Self.Reads.meaning self.new) (marked (Self.Reads.meaning self.old) t live) };

    // Makes t and u, which are free in switch i, partners in it.
    fn link(&mut self, i: u16, t: u16, u: u16)
        requires two { Couple (Self.Reads.meaning self.old) i t u }
        requires free { (Free (Self.Reads.meaning self.old) i t) × (Free (Self.Reads.meaning self.old) i u) }
        ensures { Same (Self.Reads.meaning self.new) (tied (Self.Reads.meaning self.old) i t u) };

    // Makes t and u, which are partners in switch i, free in it.
    fn unlink(&mut self, i: u16, t: u16, u: u16)
        requires two { Couple (Self.Reads.meaning self.old) i t u }
        requires linked { (Self.Reads.meaning self.old).partner i t ≡ u }
        ensures { Same (Self.Reads.meaning self.new) (untied (Self.Reads.meaning self.old) i t) };
}

// Whether t is linked in some switch.
fn is_linked<C: GMap>(map: &C, t: u16) -> bool
    ensures { MatchBool result ((i : ℕ) × (Free (C.Reads.meaning map.now) i t → ⊥)) ((i : ℕ) → Free (C.Reads.meaning map.now) i t) }
{
    for i in 0..map.top() + 1 {
        if let Ok(u) = map.partner(i, t)
            && u != t
        {
            return true;
        }
    }
    false
}

// Whether t and u can be tied in switch i, else the refusal.
pub fn admit_tie<C: GMap>(map: &C, i: u16, t: u16, u: u16) -> Result<(), Refusal>
    ensures { Outcome (tie_checks (C.Reads.meaning map.now) i t u) (λ _. Unit {0}) (Unit {0}) result }
{
    if i > map.top() {
        return Err(Refusal::NoSwitch);
    }
    if t >= map.size() || u >= map.size() {
        return Err(Refusal::NoSlot);
    }
    if !map.is_live(t) || !map.is_live(u) {
        return Err(Refusal::Vacant);
    }
    if t == u {
        return Err(Refusal::SameTuple);
    }
    // Partners are looked up last: where a look is a search, what is refused above costs none.
    if map.partner(i, t)? != t {
        return Err(Refusal::Linked);
    }
    if map.partner(i, u)? != u {
        return Err(Refusal::Linked);
    }
    Ok(())
}

impl<S: Store> GMapMut for S {
    fn open_slot(&mut self, t: u16) -> Result<(), Refusal> {
        if t >= self.size() {
            return Err(Refusal::NoSlot);
        }
        if self.is_live(t) {
            return Err(Refusal::Live);
        }
        self.mark(t, true);
        Ok(())
    }

    fn close_slot(&mut self, t: u16) -> Result<(), Refusal> {
        Tuple::at(self, t)?;
        if is_linked(self, t) {
            return Err(Refusal::Linked);
        }
        self.mark(t, false);
        Ok(())
    }

    fn tie(&mut self, i: u16, t: u16, u: u16) -> Result<(), Refusal> {
        admit_tie(self, i, t, u)?;
        self.link(i, t, u);
        Ok(())
    }

    fn untie(&mut self, i: u16, t: u16) -> Result<(), Refusal> {
        let u = self.partner(i, t)?;
        if u == t {
            return Err(Refusal::NotLinked);
        }
        self.unlink(i, t, u);
        Ok(())
    }
}
