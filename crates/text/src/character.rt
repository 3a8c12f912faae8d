ghost use Rattle.std.specs.Prelude.{◌≡◌, ◌≤◌};
ghost use Rattle.std.proofs.Math.Utf8.{encode};

// A character of a stored text: its code point, which may be a surrogate, and its bytes, a part of the text. The code
// point is a number: as a struct its field would stand in each definition that reads one, for four private clauses.
#[derive(Clone, Copy)]
pub struct Character<'a> {
    pub code: u32,
    pub bytes: &'a [u8],
    ghost bounded: { code ≤ 0x10FFFF },
    ghost spelled: { bytes.now ≡ encode code },
}
