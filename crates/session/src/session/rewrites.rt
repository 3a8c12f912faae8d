// The rules, tried where the cursor is.
ghost use Rattle.std.specs.Prelude.{◌≡◌, MatchBool};
ghost use Rattle.store.specs.Stores.{held_of};
ghost use Rattle.deciding.specs.Plans.{role_of};
ghost use Rattle.model.specs.Model.{Model};
ghost use Rattle.model.specs.Places.{role_at};
ghost use Rattle.model.specs.Tries.{HasSpace, Rule as RuleName};
ghost use Rattle.session.specs.Following.{Is};
ghost use Rattle.session.specs.Trying.{TriesRule, Appended, AsksForSpace, Decides, Holds, rule_of, parent_of, hung, hung_root};

use super::Session;
use crate::step::Step;
use crate::taking::place_below;
use base::Fault;
use building::build;
use deciding::{Decision, Place};
use file::{MAX_ENTRIES, MAX_NODES, MAX_TEXT};
use host::Host;
use model::Outcome;
use store::{Counts, Stores};
use tree::Sort;

// The rules, of which one is tried at a time.
#[derive(Clone, Copy)]
enum Rule {
    Chain,
    Method,
    Property,
}

// Whether there is space for so many more, within what a store has room for and what a payoff may have.
fn has_space(held: usize, need: usize, room: usize, limit: usize) -> bool
    ensures { MatchBool result (HasSpace held need room limit) (HasSpace held need room limit → ⊥) }
{
    let most = room.min(limit);
    held <= most && need <= most - held
}

// Changes the link that the step took, or answers the number as the root's where there is no step.
fn hang(stores: &mut Stores<'_>, parent: Option<Step>, root: u32, number: u32) -> u32
    ensures root { result ≡ hung_root parent root number }
    ensures stores { Holds stores.old (hung parent (held_of stores.old) number) stores.new }
{
    let Some(step) = parent else {
        return number;
    };
    stores.relink(step.node, step.child, number);
    root
}

impl<'a> Session<'a> {
    // Tries to make one template or one call of a chain of `concat` that ends at the cursor's node.
    pub fn chain<H: Host>(&mut self, host: &H) -> Result<Outcome, Fault>
        ensures tried { TriesRule (H.answers host.now) RuleName.chain self.old self.new result }
        ensures appended { Appended self.old self.new result }
    {
        self.try_rule(Rule::Chain, host)
    }

    // Tries to do without a known method that is called at the cursor's node.
    pub fn method<H: Host>(&mut self, host: &H) -> Result<Outcome, Fault>
        ensures tried { TriesRule (H.answers host.now) RuleName.method self.old self.new result }
        ensures appended { Appended self.old self.new result }
    {
        self.try_rule(Rule::Method, host)
    }

    // Tries to read a literal at the index that the cursor's node has.
    pub fn property<H: Host>(&mut self, host: &H) -> Result<Outcome, Fault>
        ensures tried { TriesRule (H.answers host.now) RuleName.property self.old self.new result }
        ensures appended { Appended self.old self.new result }
    {
        self.try_rule(Rule::Property, host)
    }

    fn try_rule<H: Host>(&mut self, rule: Rule, host: &H) -> Result<Outcome, Fault>
        ensures tried { TriesRule (H.answers host.now) (rule_of rule) self.old self.new result }
        ensures appended { Appended self.old self.new result }
    {
        let Decision::Rewritten(plan) = self.decide(rule, host) else {
            return Ok(Outcome::Kept);
        };
        self.ask_for_space(plan.need(&self.stores))?;
        let parent = self.parent();
        let number = build(&mut self.stores, plan)?;
        self.root = hang(&mut self.stores, parent, self.root, number);
        self.here = number;
        self.rewrites += 1;
        Ok(Outcome::Rewritten)
    }

    // What the rule makes of the cursor's node. What is no expression is kept.
    fn decide<H: Host>(&self, rule: Rule, host: &H) -> Decision
        ensures { Decides (H.answers host.now) (rule_of rule) self.now result }
    {
        let (stores, here, place, support) = (&self.stores, self.here, self.place(), self.support);
        let Some(node) = stores.node(here) else {
            return Decision::Kept;
        };
        let Sort::IsExpression = node.sort() else {
            return Decision::Kept;
        };
        match rule {
            Rule::Chain => deciding::chain(stores, here, place, support, host),
            Rule::Method => deciding::method(stores, here, place, support, host),
            Rule::Property => deciding::property(stores, here, place, host),
        }
    }

    // How the cursor's node is taken.
    fn place(&self) -> Place
        ensures { (m : Model) → Is self.now m → role_of result ≡ role_at m.whole m.place }
    {
        match self.parent() {
            Some(step) => place_below(&self.stores, step.node, step.child),
            None => Place::Ordinary,
        }
    }

    // The step that led to the cursor's node.
    fn parent(&self) -> Option<Step>
        ensures { result ≡ parent_of self.now }
    {
        if self.depth == 0 {
            None
        } else {
            Some(self.path[self.depth - 1])
        }
    }

    // Asks for space: for nodes, for entries, for bytes.
    fn ask_for_space(&self, need: Counts) -> Result<(), Fault>
        ensures { AsksForSpace self.now need result }
    {
        let (held, rooms) = (self.stores.counts(), self.stores.rooms());
        if !has_space(held.nodes, need.nodes, rooms.nodes, MAX_NODES) {
            return Err(Fault::NodesFull(self.here));
        }
        if !has_space(held.entries, need.entries, rooms.entries, MAX_ENTRIES) {
            return Err(Fault::EntriesFull(self.here));
        }
        if !has_space(held.text, need.text, rooms.text, MAX_TEXT) {
            return Err(Fault::TextFull(self.here));
        }
        Ok(())
    }
}
