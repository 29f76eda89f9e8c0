// From the bytes of a script to its requests: lines, words, numbers, the opening, and what a line asks for.
#![tactic(auto)]

pub mod cut;
pub mod number;
pub mod opening;
pub mod request;
pub mod word;
