// The calls that build a map, as values: one carried out, and a list of them; with what is promised of every board that they leave.
#![tactic(auto)]

mod performing;
mod replaying;

pub use performing::perform;
pub use replaying::replay;
