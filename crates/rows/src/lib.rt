// A generalized map in rows of numbers, in memory that the caller lends.
#![tactic(auto)]

pub mod lay;
pub mod reads;
pub mod rows;
pub mod store;
