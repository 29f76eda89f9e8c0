// How the block of a switch is searched.
ghost use Rattle.std.specs.Prelude.{◌≡◌, ◌≤◌};
ghost use Rattle.slips.specs.Blocks.{Found};
ghost use Rattle.slips.specs.Meaning.{map_of};

use crate::record::Record;
use crate::slips::Slips;

impl Slips<'_> {
    // The partner of slot t in switch i: the other end of its link, or t itself if it has none.
    pub(crate) fn opposite(&self, i: u16, t: u16) -> u16
        requires { i ≤ self.now.top }
        ensures { result ≡ (map_of self.now).partner i t }
    {
        match self.find(i, |r| r.names(t)) {
            Some(p) => self.records[p].other(t),
            None => t,
        }
    }

    // (That i is a switch is a clause, here and above, as in Tuple::partner.)
    // Where in the block of switch i a record that passes a test stands: the first that does.
    pub(crate) fn find<F: Fn(Record) -> bool>(&self, i: u16, test: F) -> Option<usize>
        requires switch { i ≤ self.now.top }
        requires test { F.IsAlwaysCallable test }
        ensures { Found self.now.records.now self.now.size i (F.post test) result }
    {
        let half = (self.size / 2) as usize;
        let from = self.size as usize + i as usize * half;
        let k = self.records[from..from + half]
            .iter()
            .position(|r| test(*r))?;
        Some(from + k)
    }
}
