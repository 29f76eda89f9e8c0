// The cells of a map: for each slot the lowest tuple of its cell.
ghost use Rattle.std.specs.Prelude.{◌≡◌, ℕ, ◌+◌, ◌*◌, ◌<◌, ◌≤◌, length, MatchBool};
ghost use Rattle.gmap.specs.Asking.{cells_checks, Labelled};
ghost use Rattle.gmap.specs.Listing.{Among};
ghost use Rattle.gmap.specs.Outcome.{Outcome};
ghost use Rattle.questions.specs.Marks.{Marked, Unlabelled};

use super::{Found, too_short};
use crate::switches::Switches;
use gmap::map::GMap;
use gmap::refusal::Refusal;
use gmap::tuple::Tuple;

// What stands in a list of labels at a vacant slot: the form in which cells are listed is fixed.
const VACANT: u16 = 65535;

// The refusals of cells.
fn admit<C: GMap>(map: &C, i: u16, scratch: usize, out: usize) -> Result<(), Refusal>
    ensures { Outcome (cells_checks (C.Reads.meaning map.now) scratch out i) (λ _. Unit {0}) (Unit {0}) result }
{
    if too_short(map, scratch, out) {
        return Err(Refusal::Short);
    }
    if i > map.top() + 1 {
        return Err(Refusal::NoSwitch);
    }
    Ok(())
}

// Writes that the first slots are vacant.
fn blank(size: u16, out: &mut [u16])
    requires { size ≤ length out.old }
    ensures { Marked (λ x. x < size) 65535 out.old out.new }
{
    out[..size as usize].fill(VACANT);
}

// Writes the label at each slot found.
fn label(found: &Found, label: u16, out: &mut [u16])
    requires { length found.now.list.now ≤ length out.old }
    ensures { Marked (Among found.now.list.now found.now.count) label out.old out.new }
{
    for x in found.slots() {
        out[*x as usize] = label;
    }
}

// Whether t is a tuple whose cell has no label yet.
fn is_unlabelled<C: GMap>(map: &C, t: u16, out: &[u16]) -> bool
    requires { t < length out.now }
    ensures { MatchBool result (Unlabelled (C.Reads.meaning map.now) t out.now) (Unlabelled (C.Reads.meaning map.now) t out.now → ⊥) }
{
    map.is_live(t) && out[t as usize] == VACANT
}

// Labels the cells by their lowest tuples, and answers how many there are. The loop is written out, as that of whole.
fn label_all<C: GMap>(map: &C, i: u16, found: &mut Found, out: &mut [u16]) -> u16
    requires size { length found.old.list.now ≡ (C.Reads.meaning map.now).size }
    requires room { (C.Reads.meaning map.now).size ≤ length out.old }
    ensures { Labelled (C.Reads.meaning map.now) i result out.old out.new }
{
    let size = map.size();
    blank(size, out);
    let mut cells = 0;
    for t in 0..size {
        if is_unlabelled(map, t, out) {
            found.gather(&Tuple { map, slot: t }, Switches::AllBut(i));
            label(found, t, out);
            cells += 1;
        }
    }
    cells
}

// Writes for each slot the lowest tuple of its i-cell, or 65,535 if it is vacant, and answers how many cells there are.
// The list is lent, with an entry for each slot.
// With i one above the top no switch is left out. What the scratch holds afterwards is free, unless it is too short: then it is as it was.
pub fn cells<C: GMap>(map: &C, i: u16, scratch: &mut [u16], out: &mut [u16]) -> Result<u16, Refusal>
    ensures outcome { Outcome (cells_checks (C.Reads.meaning map.now) (length scratch.old) (length out.old) i) (λ n. Labelled (C.Reads.meaning map.now) i n out.old out.new) (out.new ≡ out.old) result }
    ensures spared { length scratch.old < 4 * (C.Reads.meaning map.now).size → scratch.new ≡ scratch.old }
{
    admit(map, i, scratch.len(), out.len())?;
    let (list, places) = scratch.split_at_mut(map.size() as usize);
    let mut found = Found::new(list, places);
    Ok(label_all(map, i, &mut found, out))
}
