// Raw template text, read part by part.
ghost use Rattle.std.specs.Prelude.{◌≡◌};
ghost use Rattle.template.specs.Raw.{left_of, part_bytes, NextPart};

mod escapes;
mod front;
mod plain;

use base::Fault;
use escapes::backslash;
use plain::plain;

// A part of raw template text.
#[derive(Clone, Copy, PartialEq, Eq, Debug)]
pub enum RawPart<'a> {
    // A longest run without a backslash.
    Plain(&'a [u8]),
    // An escape, and the code point that it stands for, which may be a surrogate.
    Escaped(&'a [u8], u32),
    // A line continuation, which stands for nothing.
    Continuation(&'a [u8]),
}

impl<'a> RawPart<'a> {
    // The bytes of the part.
    pub fn bytes(self) -> &'a [u8]
        ensures { result.now ≡ part_bytes self.entry }
    {
        match self {
            Self::Plain(bytes) | Self::Escaped(bytes, _) | Self::Continuation(bytes) => bytes,
        }
    }
}

// The parts of raw template text, one after the other.
#[derive(Drop)]
pub struct RawReader<'a> {
    rest: &'a [u8],
}

impl<'a> RawReader<'a> {
    pub fn new(raw: &'a [u8]) -> RawReader<'a>
        ensures { left_of result ≡ raw.now }
    {
        RawReader { rest: raw }
    }

    // The next part, or None at the end. Where no part can be read, the step is refused, and nothing is read.
    pub fn next(&mut self) -> Result<Option<RawPart<'a>>, Fault>
        ensures { NextPart self.old self.new result }
    {
        let raw = self.rest;
        let found = match raw {
            [] => return Ok(None),
            [b'\\', after @ ..] => backslash(raw, after),
            _ => plain(raw),
        };
        let part = found.ok_or(Fault::Malformed)?;
        self.rest = &raw[part.bytes().len()..];
        Ok(Some(part))
    }
}
