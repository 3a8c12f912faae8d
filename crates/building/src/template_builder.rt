ghost use Rattle.std.specs.Prelude.{IsOkUnless};
ghost use Rattle.base.specs.declared.fault.Fault.TheVariants.{Overfull};
ghost use Rattle.building.specs.Builds.{LacksRoomOrText};
ghost use Rattle.building.specs.Templates.{Begins, EndsQuasi, Adds, AddsArguments, Finishes};

use super::appending::{push, run_between};
use super::joined_text::join_text;
use super::quasi::write_quasi;
use base::Fault;
use store::Stores;
use tree::{ListRun, Node, TextRun};

// A template that grows behind all that the stores hold: its entries begin at `first_entry`, and the text that no quasi
// has yet begins at `text_start`. Its quasis have the numbers in turn.
#[derive(Clone, Copy)]
pub(crate) struct TemplateBuilder {
    first_entry: usize,
    text_start: usize,
}

impl TemplateBuilder {
    // Begins with a base text.
    pub(crate) fn begin(stores: &mut Stores<'_>, base: TextRun) -> Result<TemplateBuilder, Fault>
        ensures begins { Begins stores.old base stores.new result }
        ensures fault { IsOkUnless result Overfull }
    {
        let builder = TemplateBuilder {
            first_entry: stores.entries.count(),
            text_start: stores.text.count(),
        };
        join_text(&mut stores.text, builder.text_start, base)?;
        Ok(builder)
    }

    // Adds the arguments of a call, in order.
    pub(crate) fn add_arguments(
        &mut self,
        stores: &mut Stores<'_>,
        arguments: ListRun,
    ) -> Result<(), Fault>
        ensures adds { AddsArguments self.old stores.old arguments self.new stores.new result }
        ensures fault { LacksRoomOrText result }
    {
        for i in 0..arguments.len {
            let Some(number) = stores.entries.get(arguments.start as usize + i as usize) else {
                return Err(Fault::Malformed);
            };
            self.add(stores, number)?;
        }
        Ok(())
    }

    // Adds an argument: a string joins the text, a spread has no place in a template, and any other ends a quasi.
    fn add(&mut self, stores: &mut Stores<'_>, number: u32) -> Result<(), Fault>
        ensures adds { Adds self.old stores.old number self.new stores.new result }
        ensures fault { LacksRoomOrText result }
    {
        let Some(argument) = stores.node(number) else {
            return Err(Fault::Malformed);
        };
        match argument {
            Node::String(text) => join_text(&mut stores.text, self.text_start, text),
            Node::Spread(_) => Ok(()),
            _ => {
                let quasi = self.end_quasi(stores)?;
                stores.entries.append(&[quasi, number])
            }
        }
    }

    // Ends a quasi with the text so far, begins the next text, and answers the quasi's number.
    fn end_quasi(&mut self, stores: &mut Stores<'_>) -> Result<u32, Fault>
        ensures ends { EndsQuasi self.old stores.old self.new stores.new result }
        ensures fault { LacksRoomOrText result }
    {
        let quasi = write_quasi(&mut stores.text, self.text_start)?;
        let number = push(stores, quasi)?;
        self.text_start = stores.text.count();
        Ok(number)
    }

    // Ends the template, and answers its number. Without an expression it is a string, and no quasi is made.
    pub(crate) fn finish(mut self, stores: &mut Stores<'_>) -> Result<u32, Fault>
        ensures finishes { Finishes self stores.old stores.new result }
        ensures fault { LacksRoomOrText result }
    {
        if stores.entries.count() == self.first_entry {
            let text = run_between(self.text_start, stores.text.count())?;
            return push(stores, Node::String(text));
        }
        let quasi = self.end_quasi(stores)?;
        stores.entries.append(&[quasi])?;
        let pieces = run_between(self.first_entry, stores.entries.count())?;
        push(stores, Node::Template(pieces))
    }
}
