// Boards that no script can make: slips filled to the last record, a board tied by the acts alone, and a contraction.
use crate::report::report;
use calls::replay;
use gmap::map::{GMap, GMapMut, Reads};
use gmap::refusal::Refusal;
use layers::dual::Dual;
use layers::shifted::Shifted;
use protection::call::Call;
use questions::{cells, lawful};
use removal::remove;
use slips::record::Record;
use std::io;

// The calls that make a triangle.
const TRIANGLE: [Call; 12] = [
    Call::Make(0),
    Call::Make(1),
    Call::Make(2),
    Call::Make(3),
    Call::Make(4),
    Call::Make(5),
    Call::Join(0, 0, 1),
    Call::Join(0, 2, 3),
    Call::Join(0, 4, 5),
    Call::Join(1, 1, 2),
    Call::Join(1, 3, 4),
    Call::Join(1, 5, 0),
];

// Opens the slots below a number.
fn open_below<B: GMapMut>(board: &mut B, end: u16) -> Result<(), Refusal> {
    for t in 0..end {
        board.open_slot(t)?;
    }
    Ok(())
}

// Ties the slots of each of eight pairs in a switch.
fn tie_pairs<B: GMapMut>(board: &mut B, i: u16) -> Result<(), Refusal> {
    for pair in 0..8 {
        board.tie(i, 2 * pair, 2 * pair + 1)?;
    }
    Ok(())
}

// Fills a board of 16 slots and top 3.
fn fill<B: GMapMut>(board: &mut B) -> Result<(), Refusal> {
    open_below(board, 16)?;
    for i in 0..4 {
        tie_pairs(board, i)?;
    }
    Ok(())
}

// Unties slot t in the four switches.
fn untie_from<B: GMapMut>(board: &mut B, t: u16) -> Result<(), Refusal> {
    for i in 0..4 {
        board.untie(i, t)?;
    }
    Ok(())
}

// Unties the pairs again, and closes their slots.
fn drain<B: GMapMut>(board: &mut B) -> Result<(), Refusal> {
    for pair in 0..8 {
        untie_from(board, 2 * pair)?;
        board.close_slot(2 * pair)?;
        board.close_slot(2 * pair + 1)?;
    }
    Ok(())
}

// Prints that a step was done, or the number of its refusal.
fn report_done(rt: HostRuntime, step: &str, outcome: Result<(), Refusal>) -> io::Result<()> {
    report(rt, step, outcome.map(|()| "done"))
}

// Fills slips to the last record and empties them again, and so through a pile.
pub fn fill_slips(rt: HostRuntime) -> io::Result<()> {
    let mut memory = [Record::Unused; 48];
    let mut board = slips::lay::lay_out(&mut memory, 3, 16);
    let filled = fill(&mut board);
    let used = board.used();
    println!(rt; "slips for 16 slots and top 3: {used} of 48 records used")?;
    report_done(rt, "filled", filled)?;
    report_done(rt, "emptied", drain(&mut board))?;
    let used = board.used();
    println!(rt; "  {used} records used")?;
    let mut pile = Dual::over(Shifted::over(board, 7));
    report_done(rt, "filled through a pile", fill(&mut pile))?;
    report_done(rt, "emptied through a pile", drain(&mut pile))
}

// Prints the partners of every tuple in a switch.
fn show<C: GMap>(rt: HostRuntime, map: &C, i: u16) -> io::Result<()> {
    print!(rt; "  switch {i}:")?;
    for t in 0..map.size() {
        if let Ok(partner) = map.partner(i, t) {
            print!(rt; " {t}-{partner}")?;
        }
    }
    println!(rt; "")
}

// Ties that no join makes: switches 0 and 2 do not commute.
fn tie_unlawfully<B: GMapMut>(board: &mut B) -> Result<(), Refusal> {
    open_below(board, 6)?;
    board.tie(0, 0, 1)?;
    board.tie(2, 1, 2)?;
    board.tie(1, 2, 3)?;
    board.tie(1, 1, 5)?;
    board.tie(1, 0, 4)
}

// Removes the edge of tuple 1 from a board that is not lawful: two steps lead from 3 to 5, and from 4 the walk turns back.
pub fn remove_unlawfully(rt: HostRuntime) -> io::Result<()> {
    let mut memory = [0; 18];
    let mut board = rows::lay::lay_out(&mut memory, 2, 6);
    println!(rt; "a removal on a board that is not lawful")?;
    report_done(rt, "tied", tie_unlawfully(&mut board))?;
    let law = lawful(&board);
    println!(rt; "  lawful {law}")?;
    let taken = remove(&mut board, 1, 1, &mut [0; 24]).unwrap_or(0);
    println!(rt; "  removed {taken}")?;
    show(rt, &board, 1)
}

// Contracts an edge of a triangle: a removal on the dual.
pub fn contract(rt: HostRuntime) -> io::Result<()> {
    let mut memory = [0; 18];
    let (mut scratch, mut list) = ([0; 24], [0; 6]);
    let mut board = rows::lay::lay_out(&mut memory, 2, 6);
    println!(rt; "an edge of a triangle contracted")?;
    replay(&mut board, &TRIANGLE, &mut scratch);
    let mut dual = Dual::over(board);
    let taken = remove(&mut dual, 1, 0, &mut scratch).unwrap_or(0);
    println!(rt; "  contracted {taken}")?;
    show(rt, &dual, 1)?;
    let edges = cells(&dual, 1, &mut scratch, &mut list).unwrap_or(0);
    let vertices = cells(&dual, 2, &mut scratch, &mut list).unwrap_or(0);
    println!(rt; "  {vertices} vertices, {edges} edges")
}
