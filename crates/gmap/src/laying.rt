// What fits into memory that is lent.
ghost use Rattle.std.specs.Prelude.{[], ◌∷◌};
ghost use Rattle.gmap.specs.Laying.{TooLarge};
ghost use Rattle.gmap.specs.Outcome.{Outcome};

use crate::refusal::Refusal;

// Refuses a top or a size that is out of range, and memory of fewer places than a storage needs.
pub fn fits(memory: usize, need: usize, top: u16, size: u16) -> Result<(), Refusal>
    ensures { Outcome ((TooLarge memory need top size, 13) ∷ []) (λ _. Unit {0}) (Unit {0}) result }
{
    if top > 7 || size > 4096 || memory < need {
        return Err(Refusal::Oversize);
    }
    Ok(())
}
