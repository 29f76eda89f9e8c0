// The questions that every map answers: orbits and cells, on one search; lawful and whole.
#![tactic(auto)]

mod laws;
mod search;
mod switches;
mod wholeness;

pub use laws::{commute, lawful};
pub use search::cell::cell;
pub use search::cells::cells;
pub use search::far::far_orbit;
pub use search::orbit::orbit;
pub use wholeness::whole;
