// What fits into memory that is lent, and the empty storage in it.
// Rows and slips each have these: one for both would need a trait with a type of places and a lifetime, for two short bodies.
ghost use Rattle.std.specs.Prelude.{◌≡◌, [], ◌∷◌, ◌++◌, length, drop, replicate};
ghost use Rattle.gmap.specs.Laying.{rows_need, TooLarge, Laid};
ghost use Rattle.gmap.specs.Map.{Fresh};
ghost use Rattle.gmap.specs.Outcome.{Outcome};
ghost use Rattle.rows.specs.Meaning.{map_of};

use crate::rows::{Rows, VACANT};
use gmap::laying::fits;
use gmap::refusal::Refusal;

// Refuses a top or a size that is out of range, and memory of too few numbers.
pub fn check(memory: usize, top: u16, size: u16) -> Result<(), Refusal>
    ensures { Outcome ((TooLarge memory (rows_need top size) top size, 13) ∷ []) (λ _. Unit {0}) (Unit {0}) result }
{
    fits(memory, need(top, size), top, size)
}

// How many numbers rows need.
fn need(top: u16, size: u16) -> usize
    ensures { result ≡ rows_need top size }
{
    (top as usize + 1) * size as usize
}

// Rows in the memory, every slot vacant. What the check refuses gives top 0 and no slots.
pub fn lay_out<'a>(memory: &'a mut [u16], top: u16, size: u16) -> Rows<'a>
    ensures { Laid (TooLarge (length memory.old) (rows_need top size) top size) top size (map_of result) }
{
    match check(memory.len(), top, size) {
        Ok(()) => empty(memory, top, size),
        Err(_) => empty(memory, 0, 0),
    }
}

// Rows of that top and size, every slot vacant. What lies behind the rows is as before.
#[tactic(auto, using(crate::proofs::Vacant::vacant_sound, crate::proofs::Vacant::vacant_fresh))]
fn empty<'a>(memory: &'a mut [u16], top: u16, size: u16) -> Rows<'a>
    requires { TooLarge (length memory.old) (rows_need top size) top size → ⊥ }
    ensures numbers { result.numbers.now ≡ replicate (rows_need top size) 65535 ++ drop (rows_need top size) memory.old }
    ensures fresh { Fresh (map_of result) }
    ensures top { result.top ≡ top }
    ensures size { result.size ≡ size }
{
    memory[..need(top, size)].fill(VACANT);
    Rows {
        numbers: memory,
        top,
        size,
    }
}
