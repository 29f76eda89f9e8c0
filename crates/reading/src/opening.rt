// The first line of a script, which says what storage to lay out.
ghost use Rattle.std.specs.Prelude.{◌≡◌, map};
ghost use Rattle.gmap.specs.Outcome.{Outcome};
ghost use Rattle.reading.specs.Words.{sense};
ghost use Rattle.reading.specs.Openings.{opens, opening_checks, opened_of, opening_of};

use crate::word::{Kind, Word, numbers};
use gmap::refusal::Refusal;

// The highest top of a storage that a script opens.
const TOP: u16 = 7;

// The most slots of a storage that a script opens.
const SIZE: u16 = 1024;

// A kind of storage, with its highest switch and how many slots it has.
#[derive(Clone, Copy, PartialEq, Eq, Debug)]
pub struct Opening {
    pub kind: Kind,
    pub top: u16,
    pub size: u16,
}

// Just a kind and two numbers.
fn open(words: &[Word]) -> Option<Opening>
    ensures { result ≡ opened_of (map sense words.now) }
{
    let [first, rest @ ..] = words else {
        return None;
    };
    let kind = first.kind()?;
    let [top, size] = numbers::<2>(rest)?;
    Some(Opening { kind, top, size })
}

// What the words of the first line open. Their form is tried before the bounds.
pub fn read_opening(words: &[Word]) -> Result<Opening, Refusal>
    ensures value { result ≡ opening_of (map sense words.now) }
    ensures outcome { Outcome (opening_checks (map sense words.now)) (λ o. map sense words.now ≡ opens o) (Unit {0}) result }
{
    match open(words) {
        Some(opening) if opening.top <= TOP && opening.size <= SIZE => Ok(opening),
        Some(_) => Err(Refusal::Oversize),
        None => Err(Refusal::Malformed),
    }
}
