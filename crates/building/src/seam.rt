// What a join ties.
ghost use Rattle.std.specs.Prelude.{◌≡◌, ◌≤◌, true};
ghost use Rattle.gmap.specs.Map.{Map};
ghost use Rattle.gmap.specs.Acts.{tie_checks};
ghost use Rattle.gmap.specs.Outcome.{Outcome};
ghost use Rattle.building.specs.Mates.{Joinable};

use gmap::map::GMap;
use gmap::refusal::Refusal;
use gmap::store::admit_tie;

// Two tuples of a map and the switch to tie them in.
// The table of mates stands beside it, since each step knows another fact of it.
#[derive(Drop)]
pub(crate) struct Seam<'m, C: GMap> {
    pub(crate) map: &'m C,
    pub(crate) i: u16,
    pub(crate) t: u16,
    pub(crate) u: u16,
    ghost able: { Joinable (C.Reads.meaning map.now) i t u },
}

impl<'m, C: GMap> Seam<'m, C> {
    // The seam at t and u, with the refusals that a join shares with a tie, in the order of a tie.
    pub(crate) fn new(map: &'m C, i: u16, t: u16, u: u16) -> Result<Self, Refusal>
        ensures { Outcome (tie_checks (C.Reads.meaning map.now) i t u) (λ s. (s.map.now ≡ map.now) × (s.i ≡ i) × (s.t ≡ t) × (s.u ≡ u)) (Unit {0}) result }
    {
        admit_tie(map, i, t, u)?;
        Ok(Seam { map, i, t, u })
    }
}
