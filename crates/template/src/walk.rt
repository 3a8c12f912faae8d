// Walking over a text, and writing it whole.
ghost use Rattle.std.specs.Prelude.{◌≡◌, ℕ, List};
ghost use Rattle.template.specs.Calls.{Writes};
ghost use Rattle.template.specs.Sinks.{Walks};

use super::output::Output;
use super::sink::Sink;
use base::Fault;

// A text that is handed on in some form, from its front to its end.
pub(crate) trait Walk {
    // What text it is, and how that is handed on.
    ghost Means: { Self → List ℕ → Type 0 };

    ghost form: { List ℕ → List ℕ };

    fn walk<S: Sink>(&self, sink: &mut S) -> Result<(), Fault>
        ensures { Walks (Means self.now) form S.Took sink.old sink.new result };
}

// Writes the text to the front of `out`, and answers how long it is; or leaves `out` as it was, for want of room. The
// first walk measures, and the second one writes. That it is one text at most is asked of the caller, since a law of
// the trait may rest on no proof of this crate.
pub(crate) fn write_whole<W: Walk>(text: &W, out: &mut [u8]) -> Result<usize, Fault>
    requires { (us vs : List ℕ) → W.Means text.now us → W.Means text.now vs → us ≡ vs }
    ensures { Writes (W.Means text.now) W.form out.old out.new result }
{
    let mut measured = Output::new(&mut []);
    text.walk(&mut measured)?;
    if measured.len() > out.len() {
        return Err(Fault::Overfull);
    }
    let mut written = Output::new(out);
    text.walk(&mut written)?;
    Ok(written.len())
}
