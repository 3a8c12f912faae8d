ghost use Rattle.std.specs.Prelude.{◌≡◌, ◌-◌, ◌<◌, ◌≤◌, ◌++◌, length, take, replicate, MatchOption};
ghost use Rattle.std.proofs.Math.Utf8.{encode, next};

// The bytes of one character, the first `len` of four, and zeros behind them. An array and a length, since there is no
// heap. No model: a struct that holds one with a model could not be copied by passing it, nor be handed on by `?`
// beside a reference.
#[derive(Clone, Copy)]
pub struct Encoded {
    bytes: [u8; 4],
    len: usize,
    ghost short: { len ≤ 4 },
    ghost zeros_behind: { bytes ≡ take len bytes ++ replicate (4 - len) 0 },
}

impl Encoded {
    ghost use Rattle.text.specs.Encoded.{bytes_of};

    // The bytes of a code point, surrogates among them, if there is one of this number.
    pub fn new(code: u32) -> Option<Encoded>
        ensures { MatchOption result (0x10FFFF < code) (λ e. bytes_of e ≡ encode code) }
    {
        match code {
            0..=0x7F => Some(Encoded {
                bytes: [code as u8, 0, 0, 0],
                len: 1,
            }),
            0x80..=0x7FF => Some(Encoded {
                bytes: [0xC0 + (code / 0x40) as u8, tail(code), 0, 0],
                len: 2,
            }),
            0x800..=0xFFFF => Some(Encoded {
                bytes: [
                    0xE0 + (code / 0x1000) as u8,
                    tail(code / 0x40),
                    tail(code),
                    0,
                ],
                len: 3,
            }),
            0x1_0000..=0x10_FFFF => Some(Encoded {
                bytes: [
                    0xF0 + (code / 0x4_0000) as u8,
                    tail(code / 0x1000),
                    tail(code / 0x40),
                    tail(code),
                ],
                len: 4,
            }),
            _ => None,
        }
    }

    pub fn as_bytes(&self) -> &[u8]
        ensures bytes { result.now ≡ bytes_of self.now }
        ensures short { length result.now ≤ 4 }
    {
        &self.bytes[0..self.len]
    }
}

// The low six bits of a number, as a byte that goes on with a character.
fn tail(bits: u32) -> u8
    ensures { result ≡ next bits }
{
    0x80 + (bits % 0x40) as u8
}
