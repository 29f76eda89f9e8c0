// What fits into memory that is lent, and the empty storage in it.
// Rows and slips each have these: one for both would need a trait with a type of places and a lifetime, for two short bodies.
ghost use Rattle.std.specs.Prelude.{◌≡◌, [], ◌∷◌, length};
ghost use Rattle.gmap.specs.Laying.{slips_need, TooLarge, Laid};
ghost use Rattle.gmap.specs.Map.{Fresh};
ghost use Rattle.gmap.specs.Outcome.{Outcome};
ghost use Rattle.slips.specs.Meaning.{map_of};

use crate::record::Record;
use crate::slips::Slips;
use gmap::laying::fits;
use gmap::refusal::Refusal;

// Refuses a top or a size that is out of range, and memory of too few records.
pub fn check(memory: usize, top: u16, size: u16) -> Result<(), Refusal>
    ensures { Outcome ((TooLarge memory (slips_need top size) top size, 13) ∷ []) (λ _. Unit {0}) (Unit {0}) result }
{
    let need = size as usize + (top as usize + 1) * (size / 2) as usize;
    fits(memory, need, top, size)
}

// Slips in the memory, every slot vacant. What the check refuses gives top 0 and no slots.
pub fn lay_out<'a>(memory: &'a mut [Record], top: u16, size: u16) -> Slips<'a>
    ensures { Laid (TooLarge (length memory.old) (slips_need top size) top size) top size (map_of result) }
{
    match check(memory.len(), top, size) {
        Ok(()) => empty(memory, top, size),
        Err(_) => empty(memory, 0, 0),
    }
}

// Slips of that top and size, every slot vacant.
#[tactic(auto, using(crate::proofs::Vacant::vacant_sound, crate::proofs::Vacant::vacant_fresh))]
fn empty<'a>(memory: &'a mut [Record], top: u16, size: u16) -> Slips<'a>
    requires { TooLarge (length memory.old) (slips_need top size) top size → ⊥ }
    ensures fresh { Fresh (map_of result) }
    ensures top { result.top ≡ top }
    ensures size { result.size ≡ size }
{
    memory.fill(Record::Unused);
    Slips {
        records: memory,
        top,
        size,
    }
}
