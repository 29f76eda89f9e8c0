// Which switches are far from each other.
ghost use Rattle.std.specs.Prelude.{MatchBool};
ghost use Rattle.gmap.specs.Map.{Far};

// Whether the numbers of two switches differ by two or more.
pub fn far(i: u16, j: u16) -> bool
    ensures { MatchBool result (Far i j) (Far i j → ⊥) }
{
    i as u32 + 2 <= j as u32 || j as u32 + 2 <= i as u32
}
