// A walk by two neighbouring switches in turn, up to the first even step that is back at the start.
ghost use Rattle.std.specs.Prelude.{◌≡◌, ◌*◌, ◌≤◌, length, IfOk};
ghost use Rattle.gmap.specs.Outcome.{Outcome};
ghost use Rattle.gmap.specs.Rings.{ring_checks, Ring, Encircles};
ghost use Rattle.ring.specs.Round.{Turned};

use gmap::map::GMap;
use gmap::refusal::Refusal;
use gmap::tuple::Tuple;

// The refusals of a ring; else its start.
fn admit<C: GMap>(map: &C, k: u16, t: u16, out: usize) -> Result<Tuple<C>, Refusal>
    ensures { Outcome (ring_checks (C.Reads.meaning map.now) out k t) (λ x. (x.map.now ≡ map.now) × (x.slot ≡ t)) (Unit {0}) result }
{
    if out < 2 * map.size() as usize {
        return Err(Refusal::Short);
    }
    if k == 0 || k > map.top() {
        return Err(Refusal::NoSwitch);
    }
    Tuple::at(map, t)
}

// One turn: writes x and its partner y in k - 1 as a pair, and answers the partner of y in k, and whether both steps lead on.
// Neither is there without the other, so a tuple is plainest.
fn turn<'m, C: GMap>(x: &Tuple<'m, C>, k: u16, pair: &mut [u16]) -> (Tuple<'m, C>, bool)
    requires above { 1 ≤ k }
    requires switch { k ≤ (C.Reads.meaning x.now.map.now).top }
    requires pair { length pair.old ≡ 2 }
    ensures map { result.0.map ≡ x.now.map }
    ensures turned { Turned (C.Reads.meaning x.now.map.now) k x.now.slot result.0.slot result.1 pair.new }
{
    let y = x.partner(k - 1);
    let next = y.partner(k);
    pair[0] = x.slot;
    pair[1] = y.slot;
    let leads_on = y.slot != x.slot && next.slot != y.slot;
    (next, leads_on)
}

// Goes round from the start, turn by turn, and answers how many steps it took and whether all led on. Both have a meaning after every round.
// A tuple met is free in one of the two switches if and only if some step stays where it is, so no partner is looked up twice.
fn go_round<C: GMap>(start: Tuple<C>, k: u16, out: &mut [u16]) -> (u16, bool)
    requires above { 1 ≤ k }
    requires switch { k ≤ (C.Reads.meaning start.map.now).top }
    requires room { 2 * (C.Reads.meaning start.map.now).size ≤ length out.old }
    ensures steps { Ring (C.Reads.meaning start.entry.map.now) k start.entry.slot result out.old out.new }
    ensures orbit { Encircles (C.Reads.meaning start.entry.map.now) k start.entry.slot result.0 out.new }
{
    let t = start.slot;
    let mut x = start;
    // The steps are counted since they are the answer. Pairs by chunks_exact_mut would leave a proof no element of what they wrote.
    let mut steps: u16 = 0;
    let mut closed = true;
    loop {
        let at = steps as usize;
        let (end, leads_on) = turn(&x, k, &mut out[at..at + 2]);
        x = end;
        steps += 2;
        closed &= leads_on;
        if x.slot == t {
            return (steps, closed);
        }
    }
}

// Starts at t and takes switch k - 1 at odd steps and k at even ones, up to the first even step that is back at t.
// Writes the steps before that one to the list, and answers how many they are and whether no tuple met is free in k - 1 or k.
// The list is lent; how much of it counts is one part of the answer. Callers read both as plain values.
pub fn ring<C: GMap>(map: &C, k: u16, t: u16, out: &mut [u16]) -> Result<(u16, bool), Refusal>
    ensures outcome { Outcome (ring_checks (C.Reads.meaning map.now) (length out.old) k t) (λ a. Ring (C.Reads.meaning map.now) k t a out.old out.new) (out.new ≡ out.old) result }
    ensures orbit { IfOk result (λ a. Encircles (C.Reads.meaning map.now) k t a.0 out.new) }
{
    let start = admit(map, k, t, out.len())?;
    Ok(go_round(start, k, out))
}
