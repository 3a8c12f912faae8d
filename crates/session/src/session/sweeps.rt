// The sweep.
ghost use Rattle.std.specs.Prelude.{◌≡◌};
ghost use Rattle.session.specs.Trying.{Writes};
ghost use Rattle.session.specs.Following.{given_of, SamePayoff};
ghost use Rattle.session.specs.Sweeping.{Visited, VisitedBelow, TriedEach, RoundsMade, SweepsAll, CountsChildren, AtRoot};

use super::Session;
use crate::step::MAX_STEPS;
use base::Fault;
use host::Host;
use model::{SweepRefused, Swept};

impl<'a> Session<'a> {
    // Tries every rule at each place that is not too far down, children first, in rounds until one rewrites nothing.
    // The cursor is at the root then, refused or not, and finished rewrites stay.
    pub fn sweep<H: Host>(&mut self, host: &H) -> Result<Swept, SweepRefused>
        ensures swept { SweepsAll (H.answers host.now) self.old self.new result }
        ensures wrote { ∥ Writes self.old self.new ∥₁ }
        ensures given { given_of self.new ≡ given_of self.old }
    {
        let before = self.rewrites;
        let rounds = self.make_rounds(host);
        self.go_to_root();
        let rewrites = self.rewrites - before;
        match rounds {
            Ok((rounds, left)) => Ok(Swept {
                rewrites,
                rounds,
                left,
            }),
            Err(fault) => Err(SweepRefused { fault, rewrites }),
        }
    }

    // Answers how many rounds there were, and whether the last one left places unvisited.
    fn make_rounds<H: Host>(&mut self, host: &H) -> Result<(u32, bool), Fault>
        ensures rounds { RoundsMade (H.answers host.now) self.old self.new result }
        ensures wrote { ∥ Writes self.old self.new ∥₁ }
        ensures given { given_of self.new ≡ given_of self.old }
    {
        let mut rounds = 0;
        loop {
            let before = self.rewrites;
            self.go_to_root();
            let left = self.visit(host)?;
            rounds += 1;
            if self.rewrites == before {
                return Ok((rounds, left));
            }
        }
    }

    // Visits the cursor's place, and first what is below it. Answers whether places there were too far down.
    #[cycle(visits)]
    fn visit<H: Host>(&mut self, host: &H) -> Result<bool, Fault>
        ensures visited { Visited (H.answers host.now) self.old self.new result }
        ensures wrote { ∥ Writes self.old self.new ∥₁ }
        ensures given { given_of self.new ≡ given_of self.old }
    {
        let left = self.visit_below(host)?;
        self.try_each(host)?;
        Ok(left)
    }

    #[cycle(visits)]
    fn visit_below<H: Host>(&mut self, host: &H) -> Result<bool, Fault>
        ensures visited { VisitedBelow (H.answers host.now) self.old self.new result }
        ensures wrote { ∥ Writes self.old self.new ∥₁ }
        ensures given { given_of self.new ≡ given_of self.old }
    {
        let children = self.child_count();
        if self.depth == MAX_STEPS {
            return Ok(children > 0);
        }
        let mut left = false;
        for child in 0..children {
            self.enter(child)?;
            left |= self.visit(host)?;
            self.leave()?;
        }
        Ok(left)
    }

    // Tries the rules at the cursor's place, one on what the other leaves.
    fn try_each<H: Host>(&mut self, host: &H) -> Result<(), Fault>
        ensures tried { TriedEach (H.answers host.now) self.old self.new result }
        ensures wrote { ∥ Writes self.old self.new ∥₁ }
        ensures given { given_of self.new ≡ given_of self.old }
    {
        self.chain(host)?;
        self.method(host)?;
        self.property(host)?;
        Ok(())
    }

    // How many children the cursor's node has.
    fn child_count(&self) -> u32
        ensures { CountsChildren self.now result }
    {
        let Some(node) = self.stores.node(self.here) else {
            return 0;
        };
        node.child_count() as u32
    }

    fn go_to_root(&mut self)
        ensures root { AtRoot self.old self.new }
        ensures same { SamePayoff self.old self.new }
    {
        self.here = self.root;
        self.depth = 0;
    }
}
