// The calls that build a map: make and unmake, join and part.
#![tactic(auto)]

mod collect;
mod cut;
mod pairs;
mod seam;
mod side;
mod slots;
mod tie;

pub use cut::{cut_links, part};
pub use slots::{make, unmake};
pub use tie::{join, tie_pairs};
