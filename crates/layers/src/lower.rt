// A map without its top switch, to read.
ghost use Rattle.std.specs.Prelude.{◌≡◌};
ghost use Rattle.gmap.specs.Layers.{lower};
ghost use Rattle.gmap.specs.Map.{Lawful};
ghost use Rattle.std.proofs.Common.{rules};

use gmap::map::{GMap, Reads};
use gmap::refusal::Refusal;

// The map below without its top switch. Over a map of top 0 there are no slots.
#[derive(Drop)]
pub struct Lower<C> {
    pub below: C,
}

impl<C: GMap> Lower<C> {
    // A map without its top switch.
    pub fn over(below: C) -> Self
        ensures below { result.below ≡ below }
        ensures lawful { Lawful (C.Reads.meaning result.below) → Lawful (lower (C.Reads.meaning result.below)) }
    {
        Lower { below }
    }
}

impl<C: GMap> Reads for Lower<C> {
    ghost meaning = { λ l. lower (C.Reads.meaning l.below) };

    fn size(&self) -> u16 {
        if self.below.top() == 0 {
            return 0;
        }
        self.below.size()
    }

    fn top(&self) -> u16 {
        self.below.top().saturating_sub(1)
    }

    fn is_live(&self, t: u16) -> bool {
        self.below.top() > 0 && self.below.is_live(t)
    }

    fn partner(&self, i: u16, t: u16) -> Result<u16, Refusal> {
        let top = self.below.top();
        if top == 0 && i == 0 {
            return Err(Refusal::NoSlot);
        }
        if i >= top {
            return Err(Refusal::NoSwitch);
        }
        self.below.partner(i, t)
    }
}

impl<C: GMap> GMap for Lower<C> {
    ghost partners = { Prim.search rules };
}
