// Why a call was refused. A refused call has changed nothing.
ghost use Rattle.std.specs.Prelude.{◌≡◌, Some, decimal};
ghost use Rattle.gmap.specs.Refusals.{number};

use std::fmt;

#[derive(Clone, Copy, PartialEq, Eq, Debug)]
pub enum Refusal {
    NoSwitch = 1,
    NoSlot = 2,
    Vacant = 3,
    Live = 4,
    Linked = 5,
    SameTuple = 6,
    Misfit = 7,
    NotLinked = 8,
    Twisted = 9,
    Occupied = 10,
    Short = 11,
    Malformed = 12,
    Oversize = 13,
}

impl Refusal {
    // The number that stands for the refusal in what is printed.
    pub fn code(self) -> u16
        ensures { result ≡ number self }
    {
        self as u16
    }
}

// It is printed as its number.
impl fmt::Display for Refusal {
    ghost output = { λ refusal. Some (decimal (number refusal)) };

    fn fmt<W: fmt::Write>(&self, f: &mut fmt::Formatter<W>) -> fmt::Result {
        let code = self.code();
        write!(f, "{code}")
    }
}
