// What rows answer.
ghost use Rattle.rows.specs.Meaning.{map_of};
ghost use Rattle.rows.specs.Law.{rows_partners};

use crate::rows::Rows;
use gmap::map::{GMap, Reads};
use gmap::refusal::Refusal;

impl<'a> Reads for Rows<'a> {
    ghost meaning = { map_of };

    fn size(&self) -> u16 {
        self.size
    }

    fn top(&self) -> u16 {
        self.top
    }

    // Row 0 stands for all: a slot is vacant in every row or in none.
    fn is_live(&self, t: u16) -> bool {
        t < self.size && self.look(0, t).is_some()
    }

    // Each storage tests and looks in its own way; these four questions are the trait's. Here a vacant slot is told by the look itself.
    fn partner(&self, i: u16, t: u16) -> Result<u16, Refusal> {
        if i > self.top {
            return Err(Refusal::NoSwitch);
        }
        if t >= self.size {
            return Err(Refusal::NoSlot);
        }
        self.look(i, t).ok_or(Refusal::Vacant)
    }
}

impl<'a> GMap for Rows<'a> {
    ghost partners = { λ c. rows_partners c.sound };
}
