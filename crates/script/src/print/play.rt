// A script from its bytes to what it prints: the opening, then line by line.
ghost use Rattle.std.specs.Prelude.{◌≤◌, length, OnOk};
ghost use Rattle.gmap.specs.Map.{Fresh};
ghost use Rattle.reading.specs.Pieces.{lines_of};
ghost use Rattle.script.specs.Transcript.{empty, Told, Transcript, Appended};

use super::push_line;
use crate::reply::Reply;
use crate::serve::Desk;
use gmap::map::{GMapMut, Reads};
use gmap::refusal::Refusal;
use reading::cut::{Pieces, split_first};
use reading::opening::{Opening, read_opening};
use reading::word::{Kind, words};
use rows::lay::lay_out;
use std::alloc::{AllocError, Global};

// How many bytes a script has at most.
const LONGEST: usize = 65536;

// Appends what the lines behind the opening print, on a board with no tuples.
fn play<B: GMapMut>(
    heap: Global,
    board: &mut B,
    lines: &[u8],
    out: &mut Vec<u8>,
) -> Result<(), AllocError>
    requires few { length lines.now ≤ 65536 }
    requires fresh { Fresh (B.Reads.meaning board.old) }
    ensures { OnOk result (Appended (Told (empty (B.Reads.meaning board.old).top (B.Reads.meaning board.old).size) 2 (lines_of lines.now)) out.old.items out.new.items) }
{
    let size = board.size() as usize;
    let mut scratch = vec![in heap; 0; 4 * size]?;
    let mut list = vec![in heap; 0; size]?;
    for (line, bytes) in (2..).zip(Pieces::new(lines, b'\n')) {
        let found = words(heap, line, bytes)?;
        let desk = Desk {
            scratch: scratch.as_mut_slice(),
            list: list.as_mut_slice(),
        };
        let answer = desk.answer(board, found.as_slice());
        push_line(heap, out, line, answer)?;
    }
    Ok(())
}

// Lays out what the opening asks for, and plays the lines behind it.
fn start(heap: Global, opening: Opening, lines: &[u8], out: &mut Vec<u8>) -> Result<(), AllocError>
    requires few { length lines.now ≤ 65536 }
    requires top { opening.top ≤ 7 }
    requires size { opening.size ≤ 1024 }
    ensures { OnOk result (Appended (Told (empty opening.top opening.size) 2 (lines_of lines.now)) out.old.items out.new.items) }
{
    let Opening { kind, top, size } = opening;
    match kind {
        Kind::Rows => {
            let mut memory = vec![in heap; 0; (top as usize + 1) * size as usize]?;
            play(
                heap,
                &mut lay_out(memory.as_mut_slice(), top, size),
                lines,
                out,
            )
        }
    }
}

// Appends what the script prints.
pub fn run(heap: Global, script: &[u8], out: &mut Vec<u8>) -> Result<(), AllocError>
    ensures { OnOk result (Appended (Transcript script.now) out.old.items out.new.items) }
{
    if script.len() > LONGEST {
        return push_line(heap, out, 0, Err(Refusal::Oversize));
    }
    if script.is_empty() {
        return Ok(());
    }
    let (first, rest) = split_first(script, b'\n');
    let found = words(heap, 1, first)?;
    match read_opening(found.as_slice()) {
        Ok(opening) => {
            push_line(heap, out, 1, Ok(Reply::Done))?;
            start(heap, opening, rest, out)
        }
        Err(refusal) => push_line(heap, out, 1, Err(refusal)),
    }
}
