// Sets of switches: those under which an orbit is asked.
ghost use Rattle.std.specs.Prelude.{MatchBool};
ghost use Rattle.questions.specs.Via.{via};

use gmap::switches::far;

// A value, and no closure: the contracts of the search say `via switches`, where they would have to say what a closure answers.
#[derive(Clone, Copy, PartialEq, Eq, Debug)]
pub enum Switches {
    // bit i of the mask stands for switch i
    Mask(u8),
    // those far from a switch
    FarFrom(u16),
    // all but one
    AllBut(u16),
}

impl Switches {
    // Whether switch j is one of them.
    pub fn has(self, j: u16) -> bool
        ensures { MatchBool result (via self j) (via self j → ⊥) }
    {
        match self {
            Switches::Mask(mask) => j < 8 && (mask >> j) % 2 == 1,
            Switches::FarFrom(i) => far(i, j),
            Switches::AllBut(i) => j != i,
        }
    }
}
