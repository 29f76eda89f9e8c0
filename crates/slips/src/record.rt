// One record, and what it says.
ghost use Rattle.std.specs.Prelude.{◌≡◌, if◌then◌else◌};
ghost use Rattle.slips.specs.Links.{says_something, names, other};
ghost use Rattle.slips.specs.declared.record.Record.TheVariants.{Unused, Slot};

// A record tells by its place of which slot or of which switch it speaks.
#[derive(Clone, Copy, PartialEq, Eq, Debug)]
pub enum Record {
    // It says nothing.
    Unused,
    // The slot is live.
    Slot,
    // The two tuples are partners in the switch.
    Link(u16, u16),
}

impl Record {
    // The record of a slot that is linked in no switch.
    pub(crate) fn of_slot(live: bool) -> Record
        ensures { result ≡ if live then Slot else Unused }
    {
        if live { Record::Slot } else { Record::Unused }
    }

    // Whether the record says anything.
    pub(crate) fn is_used(self) -> bool
        ensures { result ≡ says_something self }
    {
        self != Record::Unused
    }

    // Whether the record is a link of t.
    pub(crate) fn names(self, t: u16) -> bool
        ensures { result ≡ names t self }
    {
        matches!(self, Record::Link(a, b) if t == a || t == b)
    }

    // The other end of a link of t.
    pub(crate) fn other(self, t: u16) -> u16
        ensures { result ≡ other t self }
    {
        match self {
            Record::Link(a, b) if t == a => b,
            Record::Link(a, _) => a,
            _ => t,
        }
    }
}
