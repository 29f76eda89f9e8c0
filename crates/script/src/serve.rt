// A request carried out on a board.
ghost use Rattle.std.specs.Prelude.{map, length};
ghost use Rattle.reading.specs.Requests.{request_of};
ghost use Rattle.reading.specs.Words.{sense};
ghost use Rattle.script.specs.Answering.{Answers};
ghost use Rattle.script.specs.Replies.{answer_of};
ghost use Rattle.script.specs.Transcript.{Asked};

use crate::reply::Reply;
use building::{join, make, part, unmake};
use gmap::map::{GMap, GMapMut};
use gmap::refusal::Refusal;
use questions::{cells, lawful, orbit, whole};
use reading::request::{Request, read_request};
use reading::word::Word;

// The memory that is lent to a request: the scratch, and the list that a question writes to the front of.
#[derive(Drop)]
pub struct Desk<'a> {
    pub scratch: &'a mut [u16],
    pub list: &'a mut [u16],
}

impl<'a> Desk<'a> {
    // Lists an orbit. A mask above 255 names a switch above 7, which no map has.
    fn list_orbit<C: GMap>(self, map: &C, mask: u16, t: u16) -> Result<Reply<'a>, Refusal>
        ensures { Answers (length self.entry.scratch.now) (length self.entry.list.now) (C.Reads.meaning map.now) (Request.Orbit mask t) (answer_of result) (C.Reads.meaning map.now) }
    {
        let Desk { scratch, list } = self;
        let Ok(mask) = u8::try_from(mask) else {
            return Err(Refusal::NoSwitch);
        };
        let count = orbit(map, mask, t, scratch, list)?;
        Ok(Reply::Listed {
            count,
            entries: &list[..count as usize],
        })
    }

    // Lists the label of every slot.
    fn list_cells<C: GMap>(self, map: &C, i: u16) -> Result<Reply<'a>, Refusal>
        ensures { Answers (length self.entry.scratch.now) (length self.entry.list.now) (C.Reads.meaning map.now) (Request.Cells i) (answer_of result) (C.Reads.meaning map.now) }
    {
        let Desk { scratch, list } = self;
        let count = cells(map, i, scratch, list)?;
        Ok(Reply::Listed {
            count,
            entries: &list[..map.size() as usize],
        })
    }

    // Carries out a request. What it lists is written to the front of the list.
    // A request is matched here, and is no closure, since the transcript speaks of it as a value.
    fn serve<B: GMapMut>(self, board: &mut B, request: Request) -> Result<Reply<'a>, Refusal>
        ensures { Answers (length self.entry.scratch.now) (length self.entry.list.now) (B.Reads.meaning board.old) request (answer_of result) (B.Reads.meaning board.new) }
    {
        match request {
            Request::Make(t) => {
                make(board, t)?;
                Ok(Reply::Done)
            }
            Request::Unmake(t) => {
                unmake(board, t)?;
                Ok(Reply::Done)
            }
            Request::Join(i, t, u) => Ok(Reply::Count(join(board, i, t, u, self.scratch)?)),
            Request::Part(i, t) => Ok(Reply::Count(part(board, i, t, self.scratch)?)),
            Request::Orbit(mask, t) => self.list_orbit(board, mask, t),
            Request::Cells(i) => self.list_cells(board, i),
            Request::Lawful => Ok(Reply::Truth(lawful(board))),
            Request::Whole => Ok(Reply::Truth(whole(board))),
        }
    }

    // Carries out what the words of a line ask for.
    pub fn answer<B: GMapMut>(self, board: &mut B, words: &[Word]) -> Result<Reply<'a>, Refusal>
        ensures { Asked (length self.entry.scratch.now) (length self.entry.list.now) (B.Reads.meaning board.old) (request_of (map sense words.now)) (answer_of result) (B.Reads.meaning board.new) }
    {
        self.serve(board, read_request(words)?)
    }
}
