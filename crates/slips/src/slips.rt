// The storage: what it consists of, and what holds of its records at all times.
ghost use Rattle.slips.specs.Blocks.{Sound};

use crate::record::Record;

// A map with a record for each slot, and then a block of half as many records for each switch.
// Record t says whether slot t is live, and a block has a record for each link of its switch.
#[derive(Drop)]
pub struct Slips<'a> {
    pub(crate) records: &'a mut [Record],
    pub(crate) top: u16,
    pub(crate) size: u16,
    ghost sound: { Sound top size records.now },
}
