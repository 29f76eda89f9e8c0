// The dual of a map: its switches in the other order.
ghost use Rattle.std.specs.Prelude.{◌≡◌, ◌-◌, ◌<◌, ◌≤◌, MatchResult};
ghost use Rattle.gmap.specs.declared.refusal.Refusal.TheVariants.{NoSwitch};
ghost use Rattle.gmap.specs.Layers.{dual};
ghost use Rattle.layers.specs.Duals.{DualLaws};
ghost use Rattle.std.proofs.Common.{rules};

use gmap::map::{GMap, GMapMut, Reads};
use gmap::refusal::Refusal;

// Switch i is switch top - i of the map below.
#[derive(Drop)]
pub struct Dual<B> {
    pub below: B,
}

impl<B: GMap> Dual<B> {
    // The dual of a map.
    pub fn over(below: B) -> Self
        ensures below { result.below ≡ below }
        ensures laws { DualLaws (B.Reads.meaning result.below) }
    {
        Dual { below }
    }

    // The switch below that switch i stands for.
    fn mirrored(&self, i: u16) -> Result<u16, Refusal>
        ensures { let top = (B.Reads.meaning self.now.below).top in MatchResult result (λ j. (i ≤ top) × (j ≡ top - i)) (λ e. (e ≡ NoSwitch) × (top < i)) }
    {
        self.below.top().checked_sub(i).ok_or(Refusal::NoSwitch)
    }
}

impl<B: GMap> Reads for Dual<B> {
    ghost meaning = { λ d. dual (B.Reads.meaning d.below) };

    fn size(&self) -> u16 {
        self.below.size()
    }

    fn top(&self) -> u16 {
        self.below.top()
    }

    fn is_live(&self, t: u16) -> bool {
        self.below.is_live(t)
    }

    fn partner(&self, i: u16, t: u16) -> Result<u16, Refusal> {
        let j = self.mirrored(i)?;
        self.below.partner(j, t)
    }
}

impl<B: GMap> GMap for Dual<B> {
    ghost partners = { Prim.search rules };
}

impl<B: GMapMut> GMapMut for Dual<B> {
    fn open_slot(&mut self, t: u16) -> Result<(), Refusal> {
        self.below.open_slot(t)
    }

    #[tactic(auto, using(crate::proofs::DualActs::close_dual))]
    fn close_slot(&mut self, t: u16) -> Result<(), Refusal> {
        self.below.close_slot(t)
    }

    #[tactic(auto, using(crate::proofs::DualActs::tie_dual))]
    fn tie(&mut self, i: u16, t: u16, u: u16) -> Result<(), Refusal> {
        let j = self.mirrored(i)?;
        self.below.tie(j, t, u)
    }

    fn untie(&mut self, i: u16, t: u16) -> Result<(), Refusal> {
        let j = self.mirrored(i)?;
        self.below.untie(j, t)
    }
}
