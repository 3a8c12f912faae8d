ghost use Rattle.std.specs.Prelude.{◌≡◌, []};

use super::escaping::StoredText;
use super::output::Output;
use super::walk::Walk;
use base::Fault;
use text::{first_trailing, last_leading};

// How long a text is in stored form and as raw template text, and how it begins and ends: what must be known of it to
// tell how long it is once another is joined to it.
#[derive(Clone, Copy, PartialEq, Eq, Debug)]
pub struct Extent {
    stored: usize,
    raw: usize,
    begins_trailing: bool,
    ends_leading: bool,
}

impl Extent {
    ghost use Rattle.template.specs.Extent.{Measures, MeasuresText, MeasuresBoth, TellsEscaped};

    // The extent of the empty text.
    pub fn empty() -> Extent
        ensures { Measures result [] }
    {
        Extent {
            stored: 0,
            raw: 0,
            begins_trailing: false,
            ends_leading: false,
        }
    }

    // The extent of a stored text.
    pub fn of(text: &[u8]) -> Result<Extent, Fault>
        ensures { MeasuresText text.now result }
    {
        let mut measured = Output::new(&mut []);
        StoredText { text }.walk(&mut measured)?;
        Ok(Extent {
            stored: text.len(),
            raw: measured.len(),
            begins_trailing: first_trailing(text).is_some(),
            ends_leading: last_leading(text).is_some(),
        })
    }

    // The extent of the text with another one behind it. Where a leading surrogate meets a trailing one, the two become
    // one character of four bytes, in place of two of three bytes each, or of two escapes of six.
    pub fn followed_by(self, next: Extent) -> Extent
        ensures { MeasuresBoth self next result }
    {
        if self.stored == 0 {
            return next;
        }
        if next.stored == 0 {
            return self;
        }
        let meets = self.ends_leading && next.begins_trailing;
        let (stored_less, raw_less) = if meets { (2, 8) } else { (0, 0) };
        Extent {
            stored: self
                .stored
                .saturating_add(next.stored)
                .saturating_sub(stored_less),
            raw: self.raw.saturating_add(next.raw).saturating_sub(raw_less),
            begins_trailing: self.begins_trailing,
            ends_leading: next.ends_leading,
        }
    }

    // How many bytes the text has in stored form.
    pub fn stored_len(self) -> usize
        ensures { result ≡ self.stored }
    {
        self.stored
    }

    // How many bytes the text has as raw template text.
    pub fn raw_len(self) -> usize
        ensures { result ≡ self.raw }
    {
        self.raw
    }

    // Whether the raw template text is another than the stored form: each escape is longer than what it stands for.
    pub fn is_escaped(self) -> bool
        ensures { TellsEscaped self result }
    {
        self.raw != self.stored
    }
}
