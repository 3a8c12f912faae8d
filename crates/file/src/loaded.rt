// What loading a file answers.
ghost use Rattle.std.specs.Prelude.{◌≡◌};
ghost use Rattle.store.specs.Stores.{held_of};
ghost use Rattle.tree.specs.Limits.{WithinLimits};
ghost use Rattle.file.specs.Payoff.{IsPayoffRoot};

use base::Fault;
use store::Stores;

mod loading;

pub use loading::load;

// Stores that hold the tree of a payoff, within the limits, and the number of its root. Only `load` makes them.
#[derive(Drop)]
pub struct Loaded<'a> {
    stores: Stores<'a>,
    root: u32,
    ghost payoff: { ∥ IsPayoffRoot (held_of stores) root ∥₁ },
    ghost limited: { WithinLimits (held_of stores) },
}

// Why a file was refused, and the stores, as they were.
#[derive(Drop)]
pub struct Refused<'a> {
    pub fault: Fault,
    pub stores: Stores<'a>,
}

impl<'a> Loaded<'a> {
    ghost use Rattle.file.specs.Calls.{loaded_stores, loaded_root};

    // The stores, to read.
    pub fn stores(&self) -> &Stores<'a>
        ensures { result.now ≡ loaded_stores self.now }
    {
        &self.stores
    }

    // The number of the root.
    pub fn root(&self) -> u32
        ensures { result ≡ loaded_root self.now }
    {
        self.root
    }

    // Takes the stores and the number of the root.
    pub fn into_parts(self) -> (Stores<'a>, u32)
        ensures stores { result.0 ≡ loaded_stores self.entry }
        ensures root { result.1 ≡ loaded_root self.entry }
    {
        let Loaded { stores, root } = self;
        (stores, root)
    }
}
