// The edge that is split, and the numbers of the new tuples.
ghost use Rattle.std.specs.Prelude.{◌≡◌, ℕ, ◌+◌, ◌<◌, ◌≤◌, length, slice_index};

// The tuples of the edge, the place of each in their list, and the first of the numbers of the new tuples.
// A new tuple stands beside each of the edge; they are numbered upwards in the order of the list.
// A removal has a cell with places too, and knows other facts of it.
#[derive(Drop)]
pub struct Edge<'a> {
    pub members: &'a [u16],
    pub ranks: &'a [u16],
    pub first: u16,
    ghost fits: { first + length members.now ≤ 4096 },
    ghost inside: { (k : ℕ) → k < length members.now → slice_index members.now k < length ranks.now },
    ghost ranked: { (k : ℕ) → k < length members.now → slice_index ranks.now (slice_index members.now k) ≡ k },
}

impl Edge<'_> {
    // The definitions of Edges name `Edge`, so their use stands inside its impl.
    ghost use Rattle.gmap.specs.Listing.{Among};
    ghost use Rattle.splitting.specs.Edges.{count, IsBeside};

    // The number of the new tuple beside tuple x of the edge.
    pub fn beside(&self, x: u16) -> u16
        requires { Among self.now.members.now (count self.now) x }
        ensures { IsBeside self.now x result }
    {
        self.first + self.ranks[x as usize]
    }
}
