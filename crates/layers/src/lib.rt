// Maps read and changed through another map. Every layer holds the one below by value, so that piles of them are ordinary types.
#![tactic(auto)]

pub mod dual;
pub mod lower;
pub mod shifted;
