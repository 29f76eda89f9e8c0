// The model: what a generalized map is, how one is read and changed, and why a call is refused.
#![tactic(auto)]

pub mod laying;
pub mod map;
pub mod refusal;
pub mod store;
pub mod switches;
pub mod tuple;
