// A sweep over a loaded payoff.
ghost use Rattle.std.specs.Prelude.{[], ◌∷◌};
ghost use Rattle.meaning.specs.PlainWorld.{plain};
ghost use Rattle.session.specs.declared.call.Call.TheVariants.{Sweep};
ghost use Rattle.session.specs.Running.{RunsCalls};

use super::plain_world::PlainWorld;
use deciding::Support;
use file::Loaded;
use host::Host;
use session::{Answer, Call, Ended, run};

// Opens a session, sweeps once and ends it: what is left. What the sweep answers is written to `answers`, which has
// room for it.
pub fn sweep<'a, H: Host>(
    loaded: Loaded<'a>,
    support: Support,
    host: &H,
    answers: &mut [Answer; 1],
) -> Ended<'a>
    ensures { RunsCalls plain H.answers loaded.entry support (Sweep host.entry ∷ []) answers.old answers.new result }
{
    run::<PlainWorld, H>(loaded, support, &[Call::Sweep(host)], answers)
}
