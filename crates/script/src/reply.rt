// What a request is answered with, and how an answer is printed.
ghost use Rattle.std.specs.Prelude.{◌∷◌, Some, decimal};
ghost use Rattle.std.specs.Fmt.{WritesOnOk};
ghost use Rattle.script.specs.Printing.{spaced, printed};
ghost use Rattle.script.specs.Replies.{values_of, answer_of};

use gmap::refusal::Refusal;
use std::fmt;
use std::fmt::Display;

// What an accepted request comes to. What it lists is borrowed from the list that was lent.
// The count is of the tuples of an orbit, which are what is listed, or of the cells, where every slot is listed.
#[derive(Clone, Copy, PartialEq, Eq, Debug)]
pub enum Reply<'a> {
    Done,
    Count(u16),
    Truth(bool),
    Listed { count: u16, entries: &'a [u16] },
}

// Writes a number behind a space. It is written in two, since a format would cost more than its digits.
fn put<W: fmt::Write>(f: &mut fmt::Formatter<W>, number: u16) -> fmt::Result
    ensures { WritesOnOk W.Write.write_str_gives f.old result (32 ∷ decimal number) f.new }
{
    f.write_str(" ")?;
    number.fmt(f)
}

// Each number behind a space.
impl fmt::Display for Reply<'_> {
    ghost output = { λ reply. Some (spaced (values_of reply)) };

    fn fmt<W: fmt::Write>(&self, f: &mut fmt::Formatter<W>) -> fmt::Result {
        match self {
            Reply::Done => Ok(()),
            Reply::Count(count) => put(f, *count),
            Reply::Truth(holds) => put(f, u16::from(*holds)),
            Reply::Listed { count, entries } => {
                put(f, *count)?;
                for entry in *entries {
                    put(f, *entry)?;
                }
                Ok(())
            }
        }
    }
}

// A line that is printed: the number of the line that it answers, and the answer.
#[derive(Clone, Copy, PartialEq, Eq, Debug)]
pub struct Line<'a> {
    pub number: u32,
    pub answer: Result<Reply<'a>, Refusal>,
}

// The number of the line, OK or NO, and the result or the number of the refusal.
impl fmt::Display for Line<'_> {
    ghost output = { λ line. Some (printed line.number (answer_of line.answer)) };

    fn fmt<W: fmt::Write>(&self, f: &mut fmt::Formatter<W>) -> fmt::Result {
        self.number.fmt(f)?;
        match self.answer {
            Ok(reply) => {
                f.write_str(" OK")?;
                reply.fmt(f)?;
            }
            Err(refusal) => {
                f.write_str(" NO")?;
                put(f, refusal.code())?;
            }
        }
        f.write_str("\n")
    }
}
