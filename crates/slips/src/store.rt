// How slips are written: each change writes one record.
use crate::record::Record;
use crate::slips::Slips;
use gmap::store::Store;

impl<'a> Store for Slips<'a> {
    #[tactic(auto, using(crate::proofs::Slots::slot_same))]
    fn mark(&mut self, t: u16, live: bool) {
        self.records[t as usize] = Record::of_slot(live);
    }

    // The block of two free tuples has an unused record.
    fn link(&mut self, i: u16, t: u16, u: u16) {
        let p = self.find(i, |r| !r.is_used()).unwrap();
        self.records[p] = Record::Link(t, u);
    }

    // The record that has t for one end has u for the other.
    fn unlink(&mut self, i: u16, t: u16, _u: u16) {
        let p = self.find(i, |r| r.names(t)).unwrap();
        self.records[p] = Record::Unused;
    }
}
