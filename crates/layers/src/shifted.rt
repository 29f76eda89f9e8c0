// A map with its slots numbered from another one on.
ghost use Rattle.std.specs.Prelude.{◌≡◌, ◌+◌, ◌-◌, ◌%◌, ◌<◌, ◌≤◌, MatchResult};
ghost use Rattle.gmap.specs.Layers.{shifted};
ghost use Rattle.gmap.specs.Map.{Same};
ghost use Rattle.gmap.specs.declared.refusal.Refusal.TheVariants.{NoSlot};
ghost use Rattle.layers.specs.Shifts.{ShiftLaws};
ghost use Rattle.layers.specs.ShiftLaw.{shifted_partners};

use gmap::map::{GMap, GMapMut, Reads};
use gmap::refusal::Refusal;

// Slot t is slot (t + first) mod size of the map below.
#[derive(Drop)]
pub struct Shifted<B> {
    pub below: B,
    first: u16,
}

impl<B: GMap> Shifted<B> {
    // A map with its slots numbered from `first` on, all the way round.
    // What is left of `first` behind the last round is kept, so that a look has no remainder to take.
    pub fn over(below: B, first: u16) -> Self
        ensures below { result.below ≡ below }
        ensures first { Same (shifted result.first (B.Reads.meaning result.below)) (shifted first (B.Reads.meaning result.below)) }
        ensures laws { ShiftLaws result.first (B.Reads.meaning result.below) }
    {
        let size = below.size();
        let first = if size == 0 { 0 } else { first % size };
        Shifted { below, first }
    }

    // What is left of `first` behind the last round. The map below can be exchanged for one of another size,
    // so `first` is compared with its size again.
    fn rest(&self) -> u16
        requires { 0 < (B.Reads.meaning self.now.below).size }
        ensures { result ≡ self.now.first % (B.Reads.meaning self.now.below).size }
    {
        let size = self.below.size();
        if self.first < size {
            self.first
        } else {
            self.first % size
        }
    }

    // The slot below that slot t stands for.
    #[tactic(auto, using(crate::specs::Shift::down_low, crate::specs::Shift::down_high))]
    fn down(&self, t: u16) -> Result<u16, Refusal>
        ensures { let size = (B.Reads.meaning self.now.below).size in MatchResult result (λ d. (t < size) × (d ≡ (t + self.now.first) % size)) (λ e. (e ≡ NoSlot) × (size ≤ t)) }
    {
        let size = self.below.size();
        if t >= size {
            return Err(Refusal::NoSlot);
        }
        let sum = t + self.rest();
        Ok(if sum < size { sum } else { sum - size })
    }

    // The slot that stands for slot u below.
    fn up(&self, u: u16) -> u16
        requires { u < (B.Reads.meaning self.now.below).size }
        ensures { let size = (B.Reads.meaning self.now.below).size in result ≡ (u + (size - self.now.first % size)) % size }
    {
        let rest = self.rest();
        if u < rest {
            u + (self.below.size() - rest)
        } else {
            u - rest
        }
    }
}

impl<B: GMap> Reads for Shifted<B> {
    ghost meaning = { λ s. shifted s.first (B.Reads.meaning s.below) };

    fn size(&self) -> u16 {
        self.below.size()
    }

    fn top(&self) -> u16 {
        self.below.top()
    }

    fn is_live(&self, t: u16) -> bool {
        self.down(t).is_ok_and(|d| self.below.is_live(d))
    }

    fn partner(&self, i: u16, t: u16) -> Result<u16, Refusal> {
        if i > self.below.top() {
            return Err(Refusal::NoSwitch);
        }
        let d = self.down(t)?;
        let u = self.below.partner(i, d)?;
        Ok(self.up(u))
    }
}

impl<B: GMap> GMap for Shifted<B> {
    ghost partners = { λ c. shifted_partners c.first (B.Reads.meaning c.below) (B.GMap.partners c.below) };
}

impl<B: GMapMut> GMapMut for Shifted<B> {
    #[tactic(auto, using(crate::proofs::ShiftActs::open_shifted))]
    fn open_slot(&mut self, t: u16) -> Result<(), Refusal> {
        let d = self.down(t)?;
        self.below.open_slot(d)
    }

    fn close_slot(&mut self, t: u16) -> Result<(), Refusal> {
        let d = self.down(t)?;
        self.below.close_slot(d)
    }

    fn tie(&mut self, i: u16, t: u16, u: u16) -> Result<(), Refusal> {
        if i > self.below.top() {
            return Err(Refusal::NoSwitch);
        }
        let d = self.down(t)?;
        let e = self.down(u)?;
        self.below.tie(i, d, e)
    }

    fn untie(&mut self, i: u16, t: u16) -> Result<(), Refusal> {
        if i > self.below.top() {
            return Err(Refusal::NoSwitch);
        }
        let d = self.down(t)?;
        self.below.untie(i, d)
    }
}
