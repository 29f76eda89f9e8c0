// The line that is printed for an answer.
ghost use Rattle.std.specs.Prelude.{◌≡◌, ◌++◌, OnOk};
ghost use Rattle.script.specs.Printing.{printed};
ghost use Rattle.script.specs.Replies.{answer_of};

pub mod play;

use crate::reply::{Line, Reply};
use gmap::refusal::Refusal;
use std::alloc::{AllocError, Global};
use std::fmt::Formatter;
use std::{fmt, mem};

// The output, while a line is printed to it. What is printed comes in short pieces, so they are appended byte by byte.
#[derive(Drop)]
struct Output {
    bytes: Vec<u8>,
}

impl fmt::Write for Output {
    ghost write_str_gives = { λ s bs t. t.bytes.items ≡ s.bytes.items ++ bs };

    fn write_str(&mut self, s: &str) -> fmt::Result {
        for byte in s.as_bytes() {
            self.bytes.push(*byte).map_err(|_| fmt::Error)?;
        }
        Ok(())
    }
}

// Appends the line that answers line `number` of the script.
fn push_line(
    heap: Global,
    out: &mut Vec<u8>,
    number: u32,
    answer: Result<Reply, Refusal>,
) -> Result<(), AllocError>
    ensures { OnOk result (out.new.items ≡ out.old.items ++ printed number (answer_of answer.entry)) }
{
    let bytes = mem::replace(out, Vec::new(heap));
    let mut f = Formatter::new(Output { bytes });
    let printed = f.write(Line { number, answer });
    *out = f.into_inner().bytes;
    printed.map_err(|_| AllocError)
}
