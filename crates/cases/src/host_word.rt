// A host, as a word names it.
ghost use Rattle.std.specs.Prelude.{◌≡◌, IfOk, map};

use super::any_host::AnyHost;
use host::{Structural, Table};
use script::{Flaw, bytes_of};
use std::alloc::{AllocError, Global};

// What a word says of a host, which borrows it.
#[derive(Drop)]
pub enum HostWord {
    Silent,
    // The names that are bound, each in its stored form.
    Structural(Vec<Vec<u8>>),
    // A row for each loaded node.
    Table(Vec<u8>),
}

impl HostWord {
    ghost use Rattle.cases.specs.Hosts.{answers_of};
    ghost use Rattle.cases.specs.Items.{names_said, answers_said};

    // Reads `silent`, `structural`, `structural=NAME,NAME` or `table=HEX`.
    pub fn parse(heap: Global, word: &str) -> Result<HostWord, Flaw> {
        let (kind, rest) = match word.split_once('=') {
            Some((kind, rest)) => (kind, Some(rest)),
            None => (word, None),
        };
        match (kind, rest) {
            ("silent", None) => Ok(HostWord::Silent),
            ("structural", None) => Ok(HostWord::Structural(Vec::new(heap))),
            ("structural", Some(names)) => Ok(HostWord::Structural(names_of(heap, names)?)),
            ("table", Some(rows)) => Ok(HostWord::Table(bytes_of(heap, rows.as_bytes())?)),
            _ => Err(Flaw::Malformed),
        }
    }

    // The bound names, as a host borrows them.
    pub fn names(&self, heap: Global) -> Result<Vec<&[u8]>, AllocError>
        ensures { IfOk result (λ names. map (λ name. name.now) names.items ≡ names_said self.now) }
    {
        match self {
            HostWord::Structural(names) => names.iter().map(|name| name.as_slice()).collect(heap),
            HostWord::Silent | HostWord::Table(_) => Ok(Vec::new(heap)),
        }
    }

    // The host, with these bound names, for a payoff of which so many nodes were loaded.
    pub fn host<'a>(&'a self, names: &'a [&'a [u8]], loaded: usize) -> AnyHost<'a>
        ensures { map (λ name. name.now) names.now ≡ names_said self.now → answers_of result ≡ answers_said loaded self.now }
    {
        match self {
            HostWord::Silent => AnyHost::Silent,
            HostWord::Structural(_) => AnyHost::Structural(Structural::new(names)),
            HostWord::Table(rows) => AnyHost::Table(Table::new(rows.as_slice(), loaded)),
        }
    }
}

// The names, in hexadecimal, with commas between them.
fn names_of(heap: Global, word: &str) -> Result<Vec<Vec<u8>>, Flaw> {
    word.split(',')
        .map(|name| bytes_of(heap, name.as_bytes()))
        .collect::<Result<Vec<Vec<u8>>, Flaw>>(heap)?
}
