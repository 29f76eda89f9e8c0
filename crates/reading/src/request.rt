// What a line asks for: a command with just its numbers.
ghost use Rattle.std.specs.Prelude.{◌≡◌, map, MatchOption, ◌≢◌};
ghost use Rattle.gmap.specs.Outcome.{Outcome};
ghost use Rattle.reading.specs.Words.{sense};
ghost use Rattle.reading.specs.Requests.{asks, request_checks, filled_of, asked_of, request_of};

use crate::word::{Command, Word, numbers};
use gmap::refusal::Refusal;

// A command with its numbers, which reach the library as the script has them.
#[derive(Clone, Copy, PartialEq, Eq, Debug)]
pub enum Request {
    Make(u16),
    Unmake(u16),
    Join(u16, u16, u16),
    Part(u16, u16),
    Orbit(u16, u16),
    Cells(u16),
    Lawful,
    Whole,
}

// A command with just its numbers.
fn fill(command: Command, words: &[Word]) -> Option<Request>
    ensures { result ≡ filled_of command (map sense words.now) }
{
    match command {
        Command::Make => {
            let [t] = numbers::<1>(words)?;
            Some(Request::Make(t))
        }
        Command::Unmake => {
            let [t] = numbers::<1>(words)?;
            Some(Request::Unmake(t))
        }
        Command::Join => {
            let [i, t, u] = numbers::<3>(words)?;
            Some(Request::Join(i, t, u))
        }
        Command::Part => {
            let [i, t] = numbers::<2>(words)?;
            Some(Request::Part(i, t))
        }
        Command::Orbit => {
            let [mask, t] = numbers::<2>(words)?;
            Some(Request::Orbit(mask, t))
        }
        Command::Cells => {
            let [i] = numbers::<1>(words)?;
            Some(Request::Cells(i))
        }
        Command::Lawful => words.is_empty().then_some(Request::Lawful),
        Command::Whole => words.is_empty().then_some(Request::Whole),
    }
}

// The request that words are.
fn ask(words: &[Word]) -> Option<Request>
    ensures value { result ≡ asked_of (map sense words.now) }
    ensures form { MatchOption result ((q : Request) → map sense words.now ≢ asks q) (λ q. map sense words.now ≡ asks q) }
{
    let [first, rest @ ..] = words else {
        return None;
    };
    fill(first.command()?, rest)
}

// What the words of a line ask for.
pub fn read_request(words: &[Word]) -> Result<Request, Refusal>
    ensures value { result ≡ request_of (map sense words.now) }
    ensures outcome { Outcome (request_checks (map sense words.now)) (λ q. map sense words.now ≡ asks q) (Unit {0}) result }
{
    ask(words).ok_or(Refusal::Malformed)
}
