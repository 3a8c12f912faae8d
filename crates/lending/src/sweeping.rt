// A sweep over the payoff of a file.
ghost use Rattle.store.specs.Stores.{rooms_of};
ghost use Rattle.lending.specs.Lending.{SweepsFile, SweepsLoaded, answers_by, loaded_nodes};

use super::known::Known;
use base::Fault;
use deciding::Support;
use file::{Loaded, load};
use host::{Host, Structural, Table};
use model::{SweepRefused, Swept};
use session::{Ended, Session};
use store::Stores;

// Loads a file into the stores and sweeps once: what is left, and what the sweep answered.
pub(crate) fn load_and_sweep<'a>(
    file: &[u8],
    known: Known<'_>,
    support: Support,
    stores: Stores<'a>,
) -> Result<(Ended<'a>, Result<Swept, SweepRefused>), Fault>
    ensures { SweepsFile (rooms_of stores.entry) file.now (answers_by known.entry) support result }
{
    match load(file, stores) {
        Ok(loaded) => Ok(sweep_by(loaded, known, support)),
        Err(refused) => Err(refused.fault),
    }
}

// Sweeps once, by the host that is made of what is known.
fn sweep_by<'a>(
    loaded: Loaded<'a>,
    known: Known<'_>,
    support: Support,
) -> (Ended<'a>, Result<Swept, SweepRefused>)
    ensures { SweepsLoaded (answers_by known.entry (loaded_nodes loaded.entry)) loaded.entry support result.0 result.1 }
{
    match known {
        Known::Bound(names) => sweep(loaded, support, &Structural::new(names)),
        Known::Rows(rows) => {
            let nodes = loaded.stores().counts().nodes;
            sweep(loaded, support, &Table::new(rows, nodes))
        }
    }
}

// Opens a session, sweeps once by this host, and ends it.
fn sweep<'a, H: Host>(
    loaded: Loaded<'a>,
    support: Support,
    host: &H,
) -> (Ended<'a>, Result<Swept, SweepRefused>)
    ensures { SweepsLoaded (H.answers host.now) loaded.entry support result.0 result.1 }
{
    let mut session = Session::open(loaded, support);
    let swept = session.sweep(host);
    (session.end(), swept)
}
