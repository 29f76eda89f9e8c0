// A generalized map in a record for each tuple and one for each link, in memory that the caller lends.
#![tactic(auto)]

pub mod lay;
pub mod reads;
pub mod record;
pub mod search;
pub mod slips;
pub mod store;
