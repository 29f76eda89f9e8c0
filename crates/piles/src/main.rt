// Two coins as one roll, built through piles of layers, and the answers of Lower over each pile;
// a board of slips filled to its last record; and removals on boards that no script can make.
#![tactic(auto)]

mod boards;
mod report;
mod roll;

use std::io;

fn main(rt: HostRuntime) -> io::Result<()> {
    roll::on_rows(rt)?;
    roll::on_slips(rt)?;
    boards::fill_slips(rt)?;
    boards::remove_unlawfully(rt)?;
    boards::contract(rt)
}
