// The orbit of a tuple under the switches of a mask, listed upwards.
ghost use Rattle.std.specs.Prelude.{◌≡◌, ℕ, ◌*◌, ◌<◌, ◌≤◌, true, length, MatchBool};
ghost use Rattle.gmap.specs.Asking.{Bit, orbit_checks};
ghost use Rattle.gmap.specs.Listing.{Listed};
ghost use Rattle.gmap.specs.Orbits.{Orbit};
ghost use Rattle.gmap.specs.Outcome.{Outcome};

use super::{Found, too_short};
use crate::switches::Switches;
use gmap::map::GMap;
use gmap::refusal::Refusal;
use gmap::tuple::Tuple;

// Whether every switch of the mask is at most the top.
fn within(mask: u8, top: u16) -> bool
    ensures { MatchBool result ((i : ℕ) → Bit mask i → i ≤ top) ((i : ℕ) × Bit mask i × (top < i)) }
{
    for i in 0..8 {
        if i > top && Switches::Mask(mask).has(i) {
            return false;
        }
    }
    true
}

// The refusals of an orbit; else the tuple.
fn admit<C: GMap>(
    map: &C,
    mask: u8,
    t: u16,
    scratch: usize,
    out: usize,
) -> Result<Tuple<C>, Refusal>
    ensures { Outcome (orbit_checks (C.Reads.meaning map.now) scratch out mask t) (λ x. (x.map.now ≡ map.now) × (x.slot ≡ t)) (Unit {0}) result }
{
    if too_short(map, scratch, out) {
        return Err(Refusal::Short);
    }
    if !within(mask, map.top()) {
        return Err(Refusal::NoSwitch);
    }
    Tuple::at(map, t)
}

// Writes an orbit upwards.
fn write_orbit<C: GMap>(tuple: &Tuple<C>, mask: u8, scratch: &mut [u16], out: &mut [u16]) -> u16
    requires scratch { 4 * (C.Reads.meaning tuple.now.map.now).size ≤ length scratch.old }
    requires out { (C.Reads.meaning tuple.now.map.now).size ≤ length out.old }
    ensures { Listed (Orbit (C.Reads.meaning tuple.now.map.now) (Bit mask) tuple.now.slot) result out.old out.new }
{
    let (list, places) = scratch.split_at_mut(tuple.map.size() as usize);
    Found::new(list, places).list_upwards(tuple, Switches::Mask(mask), out)
}

// Writes the orbit of t under the switches of the mask upwards to the list, and answers how many tuples it has.
// A mask is the number that scripts and callers have; the search takes it as a set of switches.
// The list is lent; how much of it counts is the answer.
// What the scratch holds afterwards is free, unless it is too short: then it is as it was.
pub fn orbit<C: GMap>(
    map: &C,
    mask: u8,
    t: u16,
    scratch: &mut [u16],
    out: &mut [u16],
) -> Result<u16, Refusal>
    ensures outcome { Outcome (orbit_checks (C.Reads.meaning map.now) (length scratch.old) (length out.old) mask t) (λ n. Listed (Orbit (C.Reads.meaning map.now) (Bit mask) t) n out.old out.new) (out.new ≡ out.old) result }
    ensures spared { length scratch.old < 4 * (C.Reads.meaning map.now).size → scratch.new ≡ scratch.old }
{
    let tuple = admit(map, mask, t, scratch.len(), out.len())?;
    Ok(write_orbit(&tuple, mask, scratch, out))
}
