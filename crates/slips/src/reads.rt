// What slips answer. A look at a partner goes through the records of its switch.
ghost use Rattle.std.specs.Prelude.{◌≡◌, length, filter};
ghost use Rattle.slips.specs.Links.{says_something};
ghost use Rattle.slips.specs.Meaning.{map_of};
ghost use Rattle.slips.specs.Uses.{Uses};
ghost use Rattle.slips.specs.Law.{slips_partners};

use crate::record::Record;
use crate::slips::Slips;
use gmap::map::{GMap, Reads};
use gmap::refusal::Refusal;

impl<'a> Reads for Slips<'a> {
    ghost meaning = { map_of };

    fn size(&self) -> u16 {
        self.size
    }

    fn top(&self) -> u16 {
        self.top
    }

    fn is_live(&self, t: u16) -> bool {
        t < self.size && matches!(self.records[t as usize], Record::Slot)
    }

    // Each storage tests and looks in its own way; these four questions are the trait's.
    fn partner(&self, i: u16, t: u16) -> Result<u16, Refusal> {
        if i > self.top {
            return Err(Refusal::NoSwitch);
        }
        if t >= self.size {
            return Err(Refusal::NoSlot);
        }
        if !self.is_live(t) {
            return Err(Refusal::Vacant);
        }
        Ok(self.opposite(i, t))
    }
}

impl<'a> GMap for Slips<'a> {
    ghost partners = { λ c. slips_partners c.sound };
}

impl Slips<'_> {
    // How many records are in use: one for each tuple and one for each link.
    #[tactic(auto, using(crate::proofs::Usage::slips_use))]
    pub fn used(&self) -> usize
        ensures { Uses (map_of self.now) result }
    {
        count_used(self.records)
    }
}

// How many of some records are in use.
fn count_used(records: &[Record]) -> usize
    ensures { result ≡ length (filter says_something records.now) }
{
    let mut count = 0;
    // A sum, since a filter that is counted costs a third more.
    for record in records {
        count += usize::from(record.is_used());
    }
    count
}
