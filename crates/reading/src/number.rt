// The number that a word writes.
ghost use Rattle.std.specs.Prelude.{◌≡◌};
ghost use Rattle.reading.specs.Number.{digit_of, number_of};

// 1 to 5 digits that write at most 65,535 are a number.
// The length is tried first, so that the recursion is at most five deep.
#[tactic(auto, using(crate::proofs::Digits::number_one, crate::proofs::Digits::number_step))]
pub fn number(word: &[u8]) -> Option<u16>
    ensures { result ≡ number_of word.now }
{
    if word.len() > 5 {
        return None;
    }
    match word {
        [] => None,
        [only] => digit(*only),
        [leading @ .., last] => number(leading)?.checked_mul(10)?.checked_add(digit(*last)?),
    }
}

// The digit that a byte writes. The library's to_digit would want a char and give 32 bits.
fn digit(byte: u8) -> Option<u16>
    ensures { result ≡ digit_of byte }
{
    match byte {
        b'0'..=b'9' => Some(u16::from(byte - b'0')),
        _ => None,
    }
}
