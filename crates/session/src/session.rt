// A session.
ghost use Rattle.std.specs.Prelude.{◌≡◌, ◌≤◌, length, take};
ghost use Rattle.model.specs.Model.{Model};
ghost use Rattle.store.specs.Stores.{held_of};
ghost use Rattle.session.specs.Models.{Models};

use super::step::{MAX_STEPS, Step};
use deciding::Support;
use store::Stores;

mod calls;
mod ends;
mod moves;
mod rewrites;
mod sweeps;

pub use ends::Ended;

// A payoff's tree in the stores, with a cursor in it. Only `open` makes one, and `end` takes it apart.
#[derive(Drop)]
pub struct Session<'a> {
    stores: Stores<'a>,
    root: u32,
    // The cursor's node, and the path to it.
    here: u32,
    path: [Step; MAX_STEPS],
    depth: usize,
    support: Support,
    rewrites: u32,
    ghost long: { length path ≡ 256 },
    ghost within: { depth ≤ 256 },
    ghost sound: { ∥ ((m : Model) × Models (held_of stores) root here (take depth path) rewrites m) ∥₁ },
}
