ghost use Rattle.store.specs.Stores.{held_of};
ghost use Rattle.host.specs.Answers.{Answers};
ghost use Rattle.host.specs.Host.{Says};

use super::value_type::ValueType;
use store::Stores;

// Who knows the values that will reach a payoff. A host may be asked of any number, whatever the stores hold: what it
// answers of a node that a part of a payoff is stored at, is its answer of that part.
pub trait Host {
    ghost answers: { Self → Answers };

    // Whether running the node may change anything, throw, or never end.
    fn may_have_side_effects(&self, stores: &Stores<'_>, node: u32) -> bool
        ensures { Says (answers self.now).effects (held_of stores.now) node result };

    // Of which type each value is that the node's run ends with.
    fn value_type(&self, stores: &Stores<'_>, node: u32) -> ValueType
        ensures { Says (answers self.now).value_type (held_of stores.now) node result };

    // Whether the node is a name that means what the language itself means by it.
    fn is_global_reference(&self, stores: &Stores<'_>, node: u32) -> bool
        ensures { Says (answers self.now).global (held_of stores.now) node result };
}
