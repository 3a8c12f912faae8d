// A whole session.
ghost use Rattle.meaning.specs.World.{World};
ghost use Rattle.session.specs.Running.{RunsCalls};

use crate::call::{Answer, Call};
use crate::session::{Ended, Session};
use deciding::Support;
use file::Loaded;
use host::Host;
use meaning::Engine;

// Opens a session on what was loaded, makes the calls one after the other, and ends it. Each answer is written where
// its call stands; as many calls are made as there is room for answers. The world W is any one that payoffs are run in.
pub fn run<'a, W: Engine, H: Host>(
    loaded: Loaded<'a>,
    support: Support,
    calls: &[Call<'_, H>],
    answers: &mut [Answer],
) -> Ended<'a>
    ensures { RunsCalls W.Engine.world H.answers loaded.entry support calls.now answers.old answers.new result }
{
    let mut session = Session::open(loaded, support);
    for i in 0..calls.len().min(answers.len()) {
        answers[i] = session.make(&calls[i]);
    }
    session.end()
}
