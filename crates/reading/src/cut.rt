// Bytes cut at a separator: the cut serves the lines of a script and the words of a line.
ghost use Rattle.std.specs.Prelude.{◌≡◌, ◌+◌, ◌==◌, [], length, take, slice_range, position, MatchOption};
ghost use Rattle.std.specs.Iterator.{YieldsFirstRef, item_count};
ghost use Rattle.reading.specs.Pieces.{before, behind, Parted, pieces};

// The first place of a byte.
fn find(bytes: &[u8], by: u8) -> Option<usize>
    ensures place { result ≡ position (λ byte. byte == by) bytes.now }
    ensures parts { MatchOption result (Parted by bytes.now bytes.now []) (λ at. Parted by bytes.now (take at bytes.now) (slice_range bytes.now (at + 1) (length bytes.now))) }
{
    bytes.iter().position(|byte| *byte == by)
}

// The bytes before the first `by`, and those behind it.
#[tactic(auto, using(crate::proofs::Cuts::cuts))]
pub fn split_first<'a>(bytes: &'a [u8], by: u8) -> (&'a [u8], &'a [u8])
    ensures front { result.0.now ≡ before by bytes.now }
    ensures back { result.1.now ≡ behind by bytes.now }
    ensures parts { Parted by bytes.now result.0.now result.1.now }
{
    match find(bytes, by) {
        Some(at) => (&bytes[..at], &bytes[at + 1..]),
        None => (bytes, &[]),
    }
}

// The pieces of bytes that are left: each `by` ends one, and one at the end opens none.
#[derive(Drop)]
pub struct Pieces<'a> {
    rest: &'a [u8],
    by: u8,
}

impl<'a> Pieces<'a> {
    // The pieces of bytes that `by` ends.
    pub fn new(rest: &'a [u8], by: u8) -> Self
        ensures { pieces result.by result.rest.now ≡ pieces by rest.now }
    {
        Pieces { rest, by }
    }
}

impl<'a> Iterator for Pieces<'a> {
    type Item = &'a [u8];

    ghost next_gives = { YieldsFirstRef (λ s. pieces s.by s.rest.now) };

    ghost remaining = { item_count (λ s. pieces s.by s.rest.now) };

    // The next piece, without the `by` that ends it.
    #[tactic(auto, using(crate::proofs::Cuts::pieces_step))]
    fn next(&mut self) -> Option<&'a [u8]> {
        if self.rest.is_empty() {
            return None;
        }
        let (front, back) = split_first(self.rest, self.by);
        self.rest = back;
        Some(front)
    }
}
