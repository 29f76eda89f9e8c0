// A script carried out line by line: what it prints, from its bytes.
//
//     rows 1 2       1 OK
//     make 0         2 OK
//     make 1         3 OK
//     join 0 0 1     4 OK 1
//     orbit 1 0      5 OK 2 0 1
//     make 2         6 NO 2
#![tactic(auto)]

mod print;
mod reply;
mod serve;

pub use print::play::run;
