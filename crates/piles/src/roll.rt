// Two coins as one roll, through piles of layers.
use crate::report::report;
use calls::replay;
use gmap::map::{GMap, GMapMut, Reads};
use gmap::refusal::Refusal;
use layers::dual::Dual;
use layers::lower::Lower;
use layers::shifted::Shifted;
use protection::call::Call;
use questions::{cells, lawful, orbit, whole};
use slips::record::Record;
use std::{fmt, io};

// The calls that make two coins, each of two squares, and join them by a face.
const ROLL: [Call; 37] = [
    Call::Make(0),
    Call::Make(1),
    Call::Make(2),
    Call::Make(3),
    Call::Make(4),
    Call::Make(5),
    Call::Make(6),
    Call::Make(7),
    Call::Make(8),
    Call::Make(9),
    Call::Make(10),
    Call::Make(11),
    Call::Make(12),
    Call::Make(13),
    Call::Make(14),
    Call::Make(15),
    Call::Join(0, 0, 1),
    Call::Join(0, 2, 3),
    Call::Join(1, 1, 2),
    Call::Join(1, 3, 0),
    Call::Join(0, 4, 5),
    Call::Join(0, 6, 7),
    Call::Join(1, 5, 6),
    Call::Join(1, 7, 4),
    Call::Join(2, 0, 4),
    Call::Join(2, 2, 6),
    Call::Join(0, 8, 9),
    Call::Join(0, 10, 11),
    Call::Join(1, 9, 10),
    Call::Join(1, 11, 8),
    Call::Join(0, 12, 13),
    Call::Join(0, 14, 15),
    Call::Join(1, 13, 14),
    Call::Join(1, 15, 12),
    Call::Join(2, 8, 12),
    Call::Join(2, 10, 14),
    Call::Join(3, 4, 8),
];

// What a question lists, behind its count.
#[derive(Drop)]
struct Listing<'a> {
    count: u16,
    entries: &'a [u16],
}

impl fmt::Display for Listing<'_> {
    fn fmt<W: fmt::Write>(&self, f: &mut fmt::Formatter<W>) -> fmt::Result {
        let count = self.count;
        write!(f, "{count}:")?;
        for entry in self.entries {
            write!(f, " {entry}")?;
        }
        Ok(())
    }
}

// Lists the orbit of tuple 4.
fn list_orbit<'a, C: GMap>(map: &C, mask: u8, list: &'a mut [u16]) -> Result<Listing<'a>, Refusal> {
    let count = orbit(map, mask, 4, &mut [0; 64], list)?;
    let entries = &list[..count as usize];
    Ok(Listing { count, entries })
}

// Lists the pieces.
fn list_pieces<'a, C: GMap>(map: &C, list: &'a mut [u16]) -> Result<Listing<'a>, Refusal> {
    let count = cells(map, map.top().saturating_add(1), &mut [0; 64], list)?;
    let entries = &list[..map.size() as usize];
    Ok(Listing { count, entries })
}

// Asks a map for two orbits, for its pieces, and whether it is lawful and whole.
fn ask<C: GMap>(rt: HostRuntime, map: &C) -> io::Result<()> {
    let mut list = [0; 16];
    report(rt, "orbit 1 4", list_orbit(map, 1, &mut list))?;
    report(rt, "orbit 3 4", list_orbit(map, 3, &mut list))?;
    report(rt, "pieces", list_pieces(map, &mut list))?;
    let (law, all) = (lawful(map), whole(map));
    println!(rt; "  lawful {law}, whole {all}")
}

// The board with the roll built on it.
fn rolled<B: GMapMut>(mut board: B) -> B {
    replay(&mut board, &ROLL, &mut [0; 64]);
    board
}

// Asks Lower over a map.
fn survey<C: GMap + Drop>(rt: HostRuntime, name: &str, map: C) -> io::Result<()> {
    println!(rt; "{name}")?;
    ask(rt, &Lower::over(map))
}

// Builds the roll on a pile of two layers.
fn through_two<B: GMapMut + Drop>(rt: HostRuntime, board: B) -> io::Result<()> {
    let pile = Dual::over(Shifted::over(board, 65535));
    survey(rt, "dual of shifted by 65535", rolled(pile))
}

// Builds the roll on a pile of three layers.
fn through_three<B: GMapMut + Drop>(rt: HostRuntime, board: B) -> io::Result<()> {
    let pile = Shifted::over(Dual::over(Shifted::over(board, 20)), 3);
    survey(rt, "shifted by 3 of dual of shifted by 20", rolled(pile))
}

// The roll on rows and piles above them, with a top of 3 and with a top of 0.
pub fn on_rows(rt: HostRuntime) -> io::Result<()> {
    let mut memory = [0; 64];
    survey(rt, "rows", rolled(rows::lay::lay_out(&mut memory, 3, 16)))?;
    let pile = Dual::over(rows::lay::lay_out(&mut memory, 3, 16));
    survey(rt, "dual", rolled(pile))?;
    let pile = Shifted::over(rows::lay::lay_out(&mut memory, 3, 16), 5);
    survey(rt, "shifted by 5", rolled(pile))?;
    through_two(rt, rows::lay::lay_out(&mut memory, 3, 16))?;
    through_three(rt, rows::lay::lay_out(&mut memory, 3, 16))?;
    // What Lower drops of a dual is switch 0.
    let below = rolled(rows::lay::lay_out(&mut memory, 3, 16));
    survey(rt, "read through its dual", Dual::over(below))?;
    survey(rt, "top 0", rolled(rows::lay::lay_out(&mut memory, 0, 16)))?;
    through_three(rt, rows::lay::lay_out(&mut memory, 0, 16))
}

// The roll on slips and piles above them.
// It stands beside on_rows, since a closure that lays out a board in captured memory cannot return what borrows it.
pub fn on_slips(rt: HostRuntime) -> io::Result<()> {
    let mut memory = [Record::Unused; 48];
    survey(rt, "slips", rolled(slips::lay::lay_out(&mut memory, 3, 16)))?;
    let pile = Dual::over(slips::lay::lay_out(&mut memory, 3, 16));
    survey(rt, "dual", rolled(pile))?;
    through_two(rt, slips::lay::lay_out(&mut memory, 3, 16))?;
    through_three(rt, slips::lay::lay_out(&mut memory, 3, 16))
}
