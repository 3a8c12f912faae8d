// How the cursor moves.
ghost use Rattle.std.specs.Prelude.{◌≡◌};
ghost use Rattle.model.specs.Moves.{Enters, Leaves};
ghost use Rattle.session.specs.Following.{Follows, SamePayoff};

use super::Session;
use crate::step::{MAX_STEPS, Step};
use base::Fault;

impl<'a> Session<'a> {
    // Goes to a child of the cursor's node, counted from 0, links before list.
    pub fn enter(&mut self, child: u32) -> Result<(), Fault>
        ensures moved { Follows (λ m n. Enters m child result n) self.old self.new }
        ensures same { SamePayoff self.old self.new }
    {
        let Some(node) = self.stores.child(self.here, child) else {
            return Err(Fault::NoChild(self.here));
        };
        if self.depth == MAX_STEPS {
            return Err(Fault::PathFull(self.here));
        }
        self.path[self.depth] = Step {
            node: self.here,
            child,
        };
        self.depth += 1;
        self.here = node;
        Ok(())
    }

    // Goes to the parent of the cursor's node.
    pub fn leave(&mut self) -> Result<(), Fault>
        ensures moved { Follows (λ m n. Leaves m result n) self.old self.new }
        ensures same { SamePayoff self.old self.new }
    {
        if self.depth == 0 {
            return Err(Fault::AtRoot(self.here));
        }
        self.depth -= 1;
        self.here = self.path[self.depth].node;
        Ok(())
    }
}
