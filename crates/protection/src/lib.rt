// The six calls that build, as values; specs/ says what a list of them leaves and what holds of every board that one leaves.
#![tactic(auto)]

pub mod call;
