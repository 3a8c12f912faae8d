// Raw template text behind the text that it is of.
ghost use Rattle.std.specs.Prelude.{◌≤◌, length};
ghost use Rattle.store.specs.Raw.{AppendsRawTo};

use base::Fault;
use template::escape;

// Writes the raw text of the bytes from `start` on behind the first `len` bytes, and answers where it ends; or refuses
// it whole.
pub(crate) fn append_raw(bytes: &mut [u8], start: usize, len: usize) -> Result<usize, Fault>
    requires { len ≤ length bytes.old }
    ensures { AppendsRawTo bytes.old start len bytes.new result }
{
    if start > len {
        return Err(Fault::Overfull);
    }
    let (held, rest) = bytes.split_at_mut(len);
    let count = escape(&held[start..], rest)?;
    Ok(len + count)
}
