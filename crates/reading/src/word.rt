// The words of a line, sorted by what they say. A word borrows its bytes from the script.
ghost use Rattle.std.specs.Prelude.{◌≡◌, map, IfOk};
ghost use Rattle.reading.specs.Words.{kind_of, command_of, word_of, sense, Reads};
ghost use Rattle.reading.specs.Counts.{counted, numbers_of};
ghost use Rattle.reading.specs.Openings.{named};
ghost use Rattle.reading.specs.Requests.{ordered};

use crate::cut::Pieces;
use crate::number::number;
use std::alloc::{AllocError, Global};

// A kind of storage.
#[derive(Clone, Copy, PartialEq, Eq, Debug)]
pub enum Kind {
    Rows,
}

// What a line can ask for, by its first word.
#[derive(Clone, Copy, PartialEq, Eq, Debug)]
pub enum Command {
    Make,
    Unmake,
    Join,
    Part,
    Orbit,
    Cells,
    Lawful,
    Whole,
}

// Bytes of a script, with the number of their line.
#[derive(Clone, Copy, PartialEq, Eq, Debug)]
pub struct Part<'a> {
    pub line: u32,
    pub bytes: &'a [u8],
}

// A word, with the part of the script that it is.
#[derive(Clone, Copy, PartialEq, Eq, Debug)]
pub enum Word<'a> {
    Kind(Kind, Part<'a>),
    Command(Command, Part<'a>),
    Number(u16, Part<'a>),
    Other(Part<'a>),
}

impl Kind {
    // The kind that bytes name. No `TryFrom`: other bytes are no error, and are read as a command.
    fn read(bytes: &[u8]) -> Option<Self>
        ensures { result ≡ kind_of bytes.now }
    {
        match bytes {
            b"rows" => Some(Kind::Rows),
            _ => None,
        }
    }
}

impl Command {
    // The command that bytes name, in small letters. Other bytes are no error, and are read as a number.
    fn read(bytes: &[u8]) -> Option<Self>
        ensures { result ≡ command_of bytes.now }
    {
        match bytes {
            b"make" => Some(Command::Make),
            b"unmake" => Some(Command::Unmake),
            b"join" => Some(Command::Join),
            b"part" => Some(Command::Part),
            b"orbit" => Some(Command::Orbit),
            b"cells" => Some(Command::Cells),
            b"lawful" => Some(Command::Lawful),
            b"whole" => Some(Command::Whole),
            _ => None,
        }
    }
}

impl<'a> From<Part<'a>> for Word<'a> {
    ghost from_gives = { λ part word. word ≡ word_of part };

    // The word that a part of the script is.
    fn from(part: Part<'a>) -> Self {
        if let Some(kind) = Kind::read(part.bytes) {
            return Word::Kind(kind, part);
        }
        if let Some(command) = Command::read(part.bytes) {
            return Word::Command(command, part);
        }
        match number(part.bytes) {
            Some(value) => Word::Number(value, part),
            None => Word::Other(part),
        }
    }
}

impl<'a> Word<'a> {
    // The kind that the word is.
    // This and the next two look at a variant each: one for all would need a trait that names the variant.
    pub(crate) fn kind(&self) -> Option<Kind>
        ensures { result ≡ named (sense self.now) }
    {
        match self {
            Word::Kind(kind, _) => Some(*kind),
            _ => None,
        }
    }

    // The command that the word is.
    pub(crate) fn command(&self) -> Option<Command>
        ensures { result ≡ ordered (sense self.now) }
    {
        match self {
            Word::Command(command, _) => Some(*command),
            _ => None,
        }
    }

    // The number that the word is.
    pub fn number(&self) -> Option<u16>
        ensures { result ≡ counted (sense self.now) }
    {
        match self {
            Word::Number(value, _) => Some(*value),
            _ => None,
        }
    }
}

// Just N numbers.
pub(crate) fn numbers<const N: usize>(words: &[Word]) -> Option<[u16; N]>
    ensures { result ≡ numbers_of N (map sense words.now) }
{
    if words.len() != N {
        return None;
    }
    let mut found = [0; N];
    for (k, word) in words.iter().enumerate() {
        found[k] = word.number()?;
    }
    Some(found)
}

// The words of a line, in order.
pub fn words<'a>(heap: Global, line: u32, bytes: &'a [u8]) -> Result<Vec<Word<'a>>, AllocError>
    ensures { IfOk result (λ v. Reads line v.items bytes.now) }
{
    let mut found = Vec::new(heap);
    for piece in Pieces::new(bytes, b' ') {
        if piece.is_empty() {
            continue;
        }
        found.push(Word::from(Part { line, bytes: piece }))?;
    }
    Ok(found)
}
