// The ring of a tuple: what two neighbouring switches meet in turn.
#![tactic(auto)]

mod round;

pub use round::ring;
