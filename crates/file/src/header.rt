// The header of a file.
ghost use Rattle.std.specs.Prelude.{◌≡◌, ◌+◌, ◌≤◌, length, MatchBool};

use crate::record::{RECORD, WORD, word};
use base::Fault;

// The bytes of the header.
const HEADER: usize = 32;

// The one version there is.
const VERSION: u32 = 1;

// The limits of a payoff.
pub const MAX_NODES: usize = 4_096;

pub const MAX_ENTRIES: usize = 16_384;

pub const MAX_TEXT: usize = 65_536;

// Where the header says that a section is: how many items it has, and where it begins.
#[derive(Clone, Copy)]
pub struct Place {
    pub count: usize,
    pub offset: usize,
}

// What the header says.
#[derive(Clone, Copy)]
pub struct Header {
    pub root: u32,
    pub nodes: Place,
    pub entries: Place,
    pub text: Place,
}

impl Header {
    ghost use Rattle.file.specs.Steps.{InLimits, InPlace, ReadsHeader};

    // Reads the header of a file.
    pub(crate) fn read(file: &[u8]) -> Result<Header, Fault>
        ensures { ReadsHeader file.now result }
    {
        if file.len() < HEADER || word(file, 0) != VERSION {
            return Err(Fault::BadHeader);
        }
        Ok(Header {
            root: word(file, 4),
            nodes: Place::read(file, 8),
            entries: Place::read(file, 16),
            text: Place::read(file, 24),
        })
    }

    // Whether the counts keep to the limits.
    pub(crate) fn is_in_limits(self) -> bool
        ensures { MatchBool result (InLimits self) (InLimits self → ⊥) }
    {
        (1..=MAX_NODES).contains(&self.nodes.count)
            && self.entries.count <= MAX_ENTRIES
            && self.text.count <= MAX_TEXT
    }

    // Whether the sections follow the header and each other, up to the end of a file of `len` bytes.
    pub(crate) fn is_in_place(self, len: usize) -> bool
        requires { InLimits self }
        ensures { MatchBool result (InPlace self len) (InPlace self len → ⊥) }
    {
        let entries = HEADER + RECORD * self.nodes.count;
        let text = entries + WORD * self.entries.count;
        self.nodes.offset == HEADER
            && self.entries.offset == entries
            && self.text.offset == text
            && len == text + self.text.count
    }
}

impl Place {
    ghost use Rattle.file.specs.Steps.{place_at};

    // Reads a section's count and offset.
    fn read(file: &[u8], at: usize) -> Place
        requires { at + 8 ≤ length file.now }
        ensures { result ≡ place_at file.now at }
    {
        Place {
            count: word(file, at) as usize,
            offset: word(file, at + 4) as usize,
        }
    }
}
