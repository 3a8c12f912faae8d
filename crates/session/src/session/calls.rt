// Making calls that are values.
ghost use Rattle.std.specs.Prelude.{◌≡◌};
ghost use Rattle.session.specs.Trying.{Writes};
ghost use Rattle.session.specs.Following.{given_of};
ghost use Rattle.session.specs.Calling.{MakesCall};

use super::Session;
use crate::call::{Answer, Call};
use host::Host;

impl<'a> Session<'a> {
    // Makes a call.
    pub fn make<H: Host>(&mut self, call: &Call<'_, H>) -> Answer
        ensures made { MakesCall H.answers call.now self.old self.new result }
        ensures wrote { ∥ Writes self.old self.new ∥₁ }
        ensures given { given_of self.new ≡ given_of self.old }
    {
        match *call {
            Call::Enter(child) => Answer::Moved(self.enter(child)),
            Call::Leave => Answer::Moved(self.leave()),
            Call::Chain(host) => Answer::Tried(self.chain(host)),
            Call::Method(host) => Answer::Tried(self.method(host)),
            Call::Property(host) => Answer::Tried(self.property(host)),
            Call::Sweep(host) => Answer::Swept(self.sweep(host)),
        }
    }
}
