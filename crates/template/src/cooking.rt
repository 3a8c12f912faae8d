// Cooking: the text that raw template text stands for.
ghost use Rattle.std.specs.Prelude.{◌≡◌, ◌≤◌, true, false, MatchOption};
ghost use Rattle.std.specs.Option.{ForSome};
ghost use Rattle.std.proofs.Math.Utf8.{encode};
ghost use Rattle.text.specs.Stored.{stored};
ghost use Rattle.text.specs.Utf16.{leading, utf16};
ghost use Rattle.template.specs.Calls.{CooksInto};
ghost use Rattle.template.specs.Cooked.{Cooks};
ghost use Rattle.template.specs.Cooking.{Apart, Completes, Hands, HandsPart, Stands, withheld};
ghost use Rattle.template.specs.Lines.{normal, LineByte};
ghost use Rattle.template.specs.Sinks.{Adds};

use super::raw::{RawPart, RawReader};
use super::sink::Sink;
use super::walk::{Walk, write_whole};
use base::Fault;
use text::{Encoded, leading_of, pair};

// Hands on the character of a code point.
fn put_character<S: Sink>(sink: &mut S, code: u32)
    requires { code ≤ 0x10FFFF }
    ensures { Adds S.Took sink.old (encode code) sink.new }
{
    if let Some(character) = Encoded::new(code) {
        sink.take(character.as_bytes());
    }
}

// What a byte of a plain run stands for: LF for CR, nothing for LF right behind CR, and itself for any other.
fn line_byte(byte: u8, after_cr: bool) -> Option<u8>
    ensures { LineByte after_cr byte result }
{
    match byte {
        b'\r' => Some(b'\n'),
        b'\n' if after_cr => None,
        _ => Some(byte),
    }
}

// Hands on a plain run with LF for each line end.
fn put_lines<S: Sink>(sink: &mut S, run: &[u8])
    ensures { Adds S.Took sink.old (normal false run.now) sink.new }
{
    let mut after_cr = false;
    for byte in run {
        if let Some(value) = line_byte(*byte, after_cr) {
            sink.take(&[value]);
        }
        after_cr = *byte == b'\r';
    }
}

// The code point that a trailing surrogate makes with a leading one before it.
fn completed(lead: Option<u32>, code: u32) -> Option<u32>
    ensures { MatchOption result (Apart lead code) (Completes lead code) }
{
    pair(lead?, code)
}

// A leading surrogate that was read last. It is withheld, since a trailing one would make one character with it.
#[derive(Drop)]
pub(crate) struct Withheld {
    pub(crate) lead: Option<u32>,
    ghost half: { ForSome lead (λ h. leading h ≡ true) },
}

impl Withheld {
    // Hands on the withheld surrogate, if there is one.
    pub(crate) fn put<S: Sink>(&mut self, sink: &mut S)
        ensures taken { Adds S.Took sink.old (stored (withheld self.old.lead)) sink.new }
        ensures none { self.new.lead ≡ None }
    {
        if let Some(lead) = self.lead.take() {
            put_character(sink, lead);
        }
    }

    // Hands on one code point more. A trailing surrogate makes one character with a leading one before it.
    fn put_code<S: Sink>(&mut self, code: u32, sink: &mut S)
        requires { code ≤ 0x10FFFF }
        ensures { Hands S.Took sink.old self.old.lead (utf16 code) sink.new self.new.lead }
    {
        if let Some(both) = completed(self.lead, code) {
            self.lead = None;
            put_character(sink, both);
            return;
        }
        self.put(sink);
        match leading_of(code) {
            Some(lead) => self.lead = Some(lead),
            None => put_character(sink, code),
        }
    }

    // Hands on what one part of the raw text stands for.
    pub(crate) fn put_part<S: Sink>(&mut self, part: RawPart<'_>, sink: &mut S)
        requires { Stands part }
        ensures { HandsPart S.Took sink.old self.old.lead part.entry sink.new self.new.lead }
    {
        match part {
            RawPart::Plain(run) => {
                self.put(sink);
                put_lines(sink, run);
            }
            RawPart::Escaped(_, code) => self.put_code(code, sink),
            RawPart::Continuation(_) => {}
        }
    }
}

// Raw template text, which is handed on cooked.
#[derive(Clone, Copy)]
pub(crate) struct RawText<'a> {
    pub(crate) raw: &'a [u8],
}

impl Walk for RawText<'_> {
    ghost Means = { λ w. Cooks w.raw.now };

    ghost form = { stored };

    fn walk<S: Sink>(&self, sink: &mut S) -> Result<(), Fault> {
        let mut reader = RawReader::new(self.raw);
        let mut withheld = Withheld { lead: None };
        while let Some(part) = reader.next()? {
            withheld.put_part(part, sink);
        }
        withheld.put(sink);
        Ok(())
    }
}

// Writes the text that raw template text stands for into `out`, in stored form, and answers how long it is.
pub fn cook(raw: &[u8], out: &mut [u8]) -> Result<usize, Fault>
    ensures { CooksInto raw.now out.old out.new result }
{
    write_whole(&RawText { raw }, out)
}
