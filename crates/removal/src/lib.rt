// Taking a cell out of a map, so that the tuples around it become partners across it.
#![tactic(auto)]

mod clear;
mod crossing;
mod take;

pub use take::remove;
