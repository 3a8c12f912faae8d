// Writing and measuring by one walk: what has no room is only counted.
ghost use Rattle.std.specs.Prelude.{◌≡◌};
ghost use Rattle.template.specs.Output.{Fills};

use super::sink::Sink;
use base::append;

// An output that the caller lends, since there is no heap, and how much it would hold by now if all had room.
#[derive(Drop)]
pub(crate) struct Output<'a> {
    bytes: &'a mut [u8],
    len: usize,
}

impl<'a> Output<'a> {
    pub(crate) fn new(bytes: &'a mut [u8]) -> Output<'a>
        ensures empty { result.len ≡ 0 }
        ensures bytes { result.bytes.now ≡ bytes.old }
        ensures same_reference { result.bytes.ghost_name ≡ bytes.entry.ghost_name }
    {
        Output { bytes, len: 0 }
    }

    // How long it is, with what had no room.
    pub(crate) fn len(&self) -> usize
        ensures { result ≡ self.now.len }
    {
        self.len
    }
}

impl Sink for Output<'_> {
    ghost Took = { Fills };

    // Writes the piece behind what was written, if it ends within the output, and counts it in any case. The count
    // stops at the largest number, which is more than any output holds.
    fn take(&mut self, piece: &[u8]) {
        let end = self.len.saturating_add(piece.len());
        self.len = append(self.bytes, self.len, piece).unwrap_or(end);
    }
}
