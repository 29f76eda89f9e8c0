// The call that splits an edge: a new vertex on it.
#![tactic(auto)]

mod edge;
mod ends;
mod links;
mod slots;
mod vertex;

pub use vertex::split;
