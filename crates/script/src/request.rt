ghost use Rattle.std.specs.Prelude.{◌≡◌, ◌*◌, min, length};
ghost use Rattle.template.specs.Calls.{Writes};
ghost use Rattle.script.specs.Parts.{CallRead, NumberRead};
ghost use Rattle.script.specs.Requests.{PartsRead, RequestRead};
ghost use Rattle.script.specs.Runs.{Means, form, Answers};
ghost use Rattle.script.specs.Words.{TwoOrThree, words};

use super::failure::Failure;
use super::flaw::Flaw;
use super::hex::bytes_of;
use base::Fault;
use std::alloc::Global;
use std::str::{FromStr, from_utf8};

// A call of the library, which a word names.
#[derive(Clone, Copy, Debug, PartialEq, Eq)]
pub enum Call {
    Escape,
    Cook,
}

impl FromStr for Call {
    type Err = Flaw;

    ghost from_str_gives = { CallRead };

    fn from_str(word: &str) -> Result<Call, Flaw> {
        match word {
            "escape" => Ok(Call::Escape),
            "cook" => Ok(Call::Cook),
            _ => Err(Flaw::Malformed),
        }
    }
}

impl Call {
    // Writes what the call makes of the text.
    fn write(self, text: &[u8], out: &mut [u8]) -> Result<usize, Fault>
        ensures { Writes (Means self text.now) (form self) out.old out.new result }
    {
        match self {
            Call::Escape => template::escape(text, out),
            Call::Cook => template::cook(text, out),
        }
    }

    // What the call makes of a text, with an output of `room` bytes. No call writes more than twice as many bytes as
    // the text has, so a larger output is not made.
    pub fn run(self, heap: Global, text: &[u8], room: usize) -> Result<Vec<u8>, Failure>
        ensures { Answers self text.now (min room (2 * length text.now)) result }
    {
        let mut out = vec![in heap; 0u8; room.min(2 * text.len())]?;
        let len = self.write(text, out.as_mut_slice())?;
        out.truncate(len);
        Ok(out)
    }
}

// What a line asks for.
#[derive(Drop)]
pub struct Request {
    call: Call,
    text: Vec<u8>,
    room: usize,
}

impl Request {
    // Reads a line: the call, the text and perhaps the room.
    pub(crate) fn parse(heap: Global, line: &[u8]) -> Result<Request, Flaw>
        ensures { RequestRead line.now result }
    {
        // A line that begins with the name of no call is malformed, however long it is.
        if !line.starts_with(b"escape ") && !line.starts_with(b"cook ") {
            return Err(Flaw::Malformed);
        }
        let Some((call, text, room)) = two_or_three(from_utf8(line)?) else {
            return Err(Flaw::Malformed);
        };
        let room = match room {
            Some(word) => number_of(word.as_bytes())?,
            None => usize::MAX,
        };
        Request::of(heap, call, text, room)
    }

    // The request that the words make.
    fn of(heap: Global, call: &str, text: &str, room: usize) -> Result<Request, Flaw>
        ensures { PartsRead call.now text.now room result }
    {
        let call = call.parse()?;
        let text = bytes_of(heap, text.as_bytes())?;
        Ok(Request { call, text, room })
    }

    // What the library makes of it.
    pub fn run(&self, heap: Global) -> Result<Vec<u8>, Failure>
        ensures { Answers self.now.call self.now.text.items (min self.now.room (2 * length self.now.text.items)) result }
    {
        self.call.run(heap, self.text.as_slice(), self.room)
    }
}

// The words of a line that has two or three. No more than four are looked for, and none is kept: a line of many words
// takes no memory.
fn two_or_three(line: &str) -> Option<(&str, &str, Option<&str>)>
    ensures { TwoOrThree (words line.now) result }
{
    let mut words = line.split(' ');
    let first = words.next()?;
    let second = words.next()?;
    let third = words.next();
    if words.next().is_some() {
        return None;
    }
    Some((first, second, third))
}

// The decimal number that the word writes, with no sign.
pub fn number_of(word: &[u8]) -> Result<usize, Flaw>
    ensures { NumberRead word.now result }
{
    let digits = from_utf8(word)?;
    // `parse` takes a sign, the protocol does not.
    if digits.starts_with('+') {
        return Err(Flaw::Malformed);
    }
    Ok(digits.parse()?)
}
