// Texts.
ghost use Rattle.std.specs.Prelude.{◌≡◌};
ghost use Rattle.template.specs.Calls.{Escapes, CooksInto};
ghost use Rattle.mirabellejib.specs.Texts.{Tells, written_of};

use base::Fault;

// What was written.
#[repr(C)]
#[derive(Clone, Copy, Debug, PartialEq, Eq)]
pub struct Written {
    // How many bytes, or 0 where a fault is told.
    pub len: usize,
    // 0, or the number of the fault.
    pub fault: u32,
}

fn told(answer: Result<usize, Fault>) -> Written
    ensures { result ≡ written_of answer }
{
    match answer {
        Ok(len) => Written { len, fault: 0 },
        Err(fault) => Written {
            len: 0,
            fault: fault.number(),
        },
    }
}

// Writes the raw template text of a text, or refuses it and writes nothing.
#[unsafe(no_mangle)]
pub extern "C" fn mirabellejib_escape(text: &[u8], out: &mut [u8]) -> Written
    ensures { Tells (Escapes text.now out.old out.new) result }
{
    told(template::escape(text, out))
}

// Writes the text that raw template text cooks to, or refuses it and writes nothing.
#[unsafe(no_mangle)]
pub extern "C" fn mirabellejib_cook(raw: &[u8], out: &mut [u8]) -> Written
    ensures { Tells (CooksInto raw.now out.old out.new) result }
{
    told(template::cook(raw, out))
}
