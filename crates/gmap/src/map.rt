// The two interfaces of a generalized map: what it answers, and how it is changed.
ghost use Rattle.std.specs.Prelude.{◌≡◌};
ghost use Rattle.gmap.specs.Map.{Map, Partners, Same};
ghost use Rattle.gmap.specs.Outcome.{Outcome};
ghost use Rattle.gmap.specs.Acts.{partner_checks, open_checks, opened, close_checks, closed, tie_checks, tied, untie_checks, untied};

use crate::refusal::Refusal;

// What a generalized map answers. All its answers are those of one map, its meaning.
pub trait Reads {
    ghost meaning: { Self → Map };

    // How many slots there are.
    fn size(&self) -> u16
        ensures { result ≡ (meaning self.now).size };

    // The highest switch.
    fn top(&self) -> u16
        ensures { result ≡ (meaning self.now).top };

    // Whether slot t holds a tuple.
    fn is_live(&self, t: u16) -> bool
        ensures { result ≡ (meaning self.now).live t };

    // The partner of t in switch i.
    fn partner(&self, i: u16, t: u16) -> Result<u16, Refusal>
        ensures { Outcome (partner_checks (meaning self.now) i t) (λ u. u ≡ (meaning self.now).partner i t) (Unit {0}) result };
}

// A generalized map: its meaning keeps the law of partners.
// The law stands apart from the answers: they are proved first, and an impl then owes it by the lemma that proves it.
pub trait GMap: Reads {
    ghost partners: { (c : Self) → Partners (Self.Reads.meaning c) };
}

// A generalized map that four acts change in place. A refused act changes nothing.
pub trait GMapMut: GMap {
    // Makes slot t a tuple that is free in every switch.
    fn open_slot(&mut self, t: u16) -> Result<(), Refusal>
        ensures { Outcome (open_checks (Self.Reads.meaning self.old) t) (λ _. Same (Self.Reads.meaning self.new) (opened (Self.Reads.meaning self.old) t)) (Same (Self.Reads.meaning self.new) (Self.Reads.meaning self.old)) result };

    // Makes slot t vacant.
    fn close_slot(&mut self, t: u16) -> Result<(), Refusal>
        ensures { Outcome (close_checks (Self.Reads.meaning self.old) t) (λ _. Same (Self.Reads.meaning self.new) (closed (Self.Reads.meaning self.old) t)) (Same (Self.Reads.meaning self.new) (Self.Reads.meaning self.old)) result };

    // Makes t and u partners in switch i.
    fn tie(&mut self, i: u16, t: u16, u: u16) -> Result<(), Refusal>
        ensures { Outcome (tie_checks (Self.Reads.meaning self.old) i t u) (λ _. Same (Self.Reads.meaning self.new) (tied (Self.Reads.meaning self.old) i t u)) (Same (Self.Reads.meaning self.new) (Self.Reads.meaning self.old)) result };

    // Makes t and its partner in switch i free in it.
    fn untie(&mut self, i: u16, t: u16) -> Result<(), Refusal>
        ensures { Outcome (untie_checks (Self.Reads.meaning self.old) i t) (λ _. Same (Self.Reads.meaning self.new) (untied (Self.Reads.meaning self.old) i t)) (Same (Self.Reads.meaning self.new) (Self.Reads.meaning self.old)) result };
}
