// Opening, looking and ending.
ghost use Rattle.std.specs.Prelude.{◌≡◌};
ghost use Rattle.tree.specs.Tree.{label};
ghost use Rattle.model.specs.Model.{Model};
ghost use Rattle.session.specs.Following.{Is, OpensOn, EndsWith};

use super::Session;
use crate::step::{MAX_STEPS, Step};
use deciding::Support;
use file::Loaded;
use store::{Counts, Stores};

// What a session leaves: the payoff's root, how many rewrites were made since opening, and the stores.
#[derive(Drop)]
pub struct Ended<'a> {
    pub root: u32,
    pub rewrites: u32,
    pub counts: Counts,
    pub stores: Stores<'a>,
}

impl<'a> Session<'a> {
    // A session on what was loaded, with its cursor at the root.
    pub fn open(loaded: Loaded<'a>, support: Support) -> Session<'a>
        ensures { OpensOn loaded.entry support result }
    {
        let (stores, root) = loaded.into_parts();
        Session {
            stores,
            root,
            here: root,
            path: [Step { node: 0, child: 0 }; MAX_STEPS],
            depth: 0,
            support,
            rewrites: 0,
        }
    }

    // The stores, in which the root's number denotes the payoff's tree.
    pub fn stores(&self) -> &Stores<'a>
        ensures { result.now ≡ self.now.stores }
    {
        &self.stores
    }

    // The number of the payoff's root.
    pub fn root(&self) -> u32
        ensures { (m : Model) → Is self.now m → result ≡ label m.whole }
    {
        self.root
    }

    // Gives back the stores, with the number of the payoff's root and what they hold.
    pub fn end(self) -> Ended<'a>
        ensures { EndsWith self.entry result }
    {
        let Session {
            stores,
            root,
            here: _,
            path: _,
            depth: _,
            support: _,
            rewrites,
        } = self;
        let counts = stores.counts();
        Ended {
            root,
            rewrites,
            counts,
            stores,
        }
    }
}
