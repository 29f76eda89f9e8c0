// A list of calls carried out on a board.
ghost use Rattle.std.specs.Prelude.{length};
ghost use Rattle.gmap.specs.Map.{Fresh};
ghost use Rattle.protection.specs.Protection.{Protected, Protection};
ghost use Rattle.protection.specs.Runs.{Run, each};

use crate::performing::perform;
use gmap::map::GMapMut;
use protection::call::Call;

// Carries out the calls one after the other, each with the same scratch, and passes over those that are refused.
// A board with no tuples is then as the protection says.
#[tactic(auto, using(crate::proofs::Runs::run_more, crate::proofs::Runs::run_all, gmap::proofs::Same::same_refl, protection::proofs::Protection::protection))]
pub fn replay<B: GMapMut>(board: &mut B, calls: &[Call], scratch: &mut [u16])
    ensures run { Run (each (length scratch.old) calls.now) (B.Reads.meaning board.old) (B.Reads.meaning board.new) }
    ensures protection { Protection (B.Reads.meaning board.old).size (B.Reads.meaning board.old).top }
    ensures protected { Fresh (B.Reads.meaning board.old) → Protected (B.Reads.meaning board.new) }
{
    for call in calls {
        let _ = perform(board, *call, scratch);
    }
}
