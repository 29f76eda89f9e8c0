// One call carried out on a board.
ghost use Rattle.std.specs.Prelude.{◌≡◌, ◌*◌, ◌<◌, length};
ghost use Rattle.gmap.specs.Map.{Lawful};
ghost use Rattle.protection.specs.Protection.{Protection};
ghost use Rattle.protection.specs.Runs.{Performed};
ghost use Rattle.protection.specs.Undoing.{Undoing};

use building::{join, make, part, unmake};
use gmap::map::GMapMut;
use gmap::refusal::Refusal;
use protection::call::{Answer, Call};
use removal::remove;
use splitting::split;

// Hands a call on to the function that carries it out. A call is a value: lists of them are what the protection speaks of.
fn carry_out<B: GMapMut>(board: &mut B, call: Call, scratch: &mut [u16]) -> Result<Answer, Refusal>
    ensures outcome { Performed (length scratch.old) call (B.Reads.meaning board.old) result (B.Reads.meaning board.new) }
    ensures spared { length scratch.old < 4 * (B.Reads.meaning board.old).size → scratch.new ≡ scratch.old }
{
    match call {
        Call::Make(t) => make(board, t).map(|()| Answer::Done),
        Call::Unmake(t) => unmake(board, t).map(|()| Answer::Done),
        Call::Join(i, t, u) => join(board, i, t, u, scratch).map(Answer::Count),
        Call::Part(i, t) => part(board, i, t, scratch).map(Answer::Count),
        Call::Split(t, f) => {
            split(board, t, f, scratch).map(|(first, added)| Answer::Added(first, added))
        }
        Call::Remove(i, t) => remove(board, i, t, scratch).map(Answer::Count),
    }
}

// What is promised of a board at hand and of every one of its size and top: it does nothing, and its contract is the two theorems.
fn vouch<B: GMapMut>(board: &B)
    ensures undoing { Lawful (B.Reads.meaning board.now) → Undoing (B.Reads.meaning board.now) }
    ensures protection { Protection (B.Reads.meaning board.now).size (B.Reads.meaning board.now).top }
{}

// Carries out a call, and answers what it comes to.
// What is promised of every board that was empty once and was then changed by calls alone stands on this contract.
// What the scratch holds afterwards is free, unless it is too short: then it is as it was, which no type of a lent slice says.
pub fn perform<B: GMapMut>(
    board: &mut B,
    call: Call,
    scratch: &mut [u16],
) -> Result<Answer, Refusal>
    ensures outcome { Performed (length scratch.old) call (B.Reads.meaning board.old) result (B.Reads.meaning board.new) }
    ensures spared { length scratch.old < 4 * (B.Reads.meaning board.old).size → scratch.new ≡ scratch.old }
    ensures undoing { Lawful (B.Reads.meaning board.old) → Undoing (B.Reads.meaning board.old) }
    ensures protection { Protection (B.Reads.meaning board.old).size (B.Reads.meaning board.old).top }
{
    vouch(board);
    carry_out(board, call, scratch)
}
