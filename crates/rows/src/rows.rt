// The storage: what it consists of, and what holds of its numbers at all times.
ghost use Rattle.std.specs.Prelude.{◌≡◌, ◌+◌, ◌*◌, ◌<◌, ◌≤◌, length, MatchOption, ◌≢◌};
ghost use Rattle.rows.specs.Numbers.{number_at, Sound};

// The number in every row of a vacant slot. The memory is lent as numbers, with no room for an Option; a look makes one of it.
pub(crate) const VACANT: u16 = 65535;

// A map with a row of numbers for each switch: number t of row i is the partner of t in switch i.
#[derive(Drop)]
pub struct Rows<'a> {
    pub(crate) numbers: &'a mut [u16],
    pub(crate) top: u16,
    pub(crate) size: u16,
    ghost sound: { Sound top size numbers.now },
}

impl Rows<'_> {
    // Where number t of row i stands. (That i is a switch is a clause, as in Tuple::partner.)
    pub(crate) fn place(&self, i: u16, t: u16) -> usize
        requires switch { i ≤ self.now.top }
        requires slot { t < self.now.size }
        ensures value { result ≡ i * self.now.size + t }
        ensures inside { result < length self.now.numbers.now }
    {
        i as usize * self.size as usize + t as usize
    }

    // The partner of slot t in switch i, if the slot holds a tuple. It takes one load.
    pub(crate) fn look(&self, i: u16, t: u16) -> Option<u16>
        requires switch { i ≤ self.now.top }
        requires slot { t < self.now.size }
        ensures { let number = number_at self.now.numbers.now self.now.size i t in MatchOption result (number ≡ 65535) (λ u. (u ≡ number) × (u ≢ 65535)) }
    {
        match self.numbers[self.place(i, t)] {
            VACANT => None,
            number => Some(number),
        }
    }
}
