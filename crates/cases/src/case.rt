// A case: a file, stores to load it into, and the calls of a session on it.
ghost use Rattle.std.specs.Prelude.{◌≡◌, IfOk, OnOk, string_bytes};
ghost use Rattle.session.specs.Following.{given_of};
ghost use Rattle.cases.specs.Cases.{AsksCase, RoomsSaid, RunOf, SwitchSaid};
ghost use Rattle.cases.specs.Items.{AppendsEach};

use super::call::CaseCall;
use super::memory::Memory;
use super::told::End;
use deciding::Support;
use file::load;
use script::{Answer, Flaw, bytes_of, number_of, words_of};
use session::Session;
use std::alloc::{AllocError, Global};
use store::Counts;

// What a `case` line asks for.
#[derive(Drop)]
pub struct Case {
    file: Vec<u8>,
    rooms: Counts,
    support: Support,
    calls: Vec<CaseCall>,
}

impl Case {
    // Reads a line, with one space between words.
    pub fn parse(heap: Global, line: &[u8]) -> Result<Case, Flaw>
        ensures { IfOk result (λ case. AsksCase line.now case.file.items case.rooms case.support) }
    {
        // Most lines that are no case are known by their front, before any memory is asked for.
        if !line.starts_with(b"case ") {
            return Err(Flaw::Malformed);
        }
        let words = words_of(heap, line)?;
        let ["case", file, rooms, templates, power, calls @ ..] = words.as_slice() else {
            return Err(Flaw::Malformed);
        };
        Ok(Case {
            file: bytes_of(heap, file.as_bytes())?,
            rooms: rooms_of(heap, rooms)?,
            support: Support {
                templates: switch_of(templates)?,
                power: switch_of(power)?,
            },
            calls: calls
                .iter()
                .map(|word| CaseCall::parse(heap, word))
                .collect::<Result<Vec<CaseCall>, Flaw>>(heap)??,
        })
    }

    // Loads the file, makes the calls, and answers what came of each.
    pub fn run(&self, heap: Global) -> Result<String, AllocError>
        ensures { IfOk result (λ text. RunOf self.now.file.items self.now.rooms self.now.support self.now.calls.items (string_bytes text)) }
    {
        let mut memory = Memory::new(heap, self.rooms)?;
        match load(self.file.as_slice(), memory.stores()) {
            Ok(loaded) => {
                let mut session = Session::open(loaded, self.support);
                let mut text = String::from_str(heap, "loaded")?;
                self.make_calls(heap, &mut session, &mut text)?;
                text.push_str(format!(in heap; "; {}", End::of(&session.end()))?.as_str())?;
                Ok(text)
            }
            Err(refused) => format!(in heap; "{}", Answer::Refused(refused.fault)),
        }
    }

    // Makes the calls in a session that is just open, and appends what came of each, behind a semicolon.
    fn make_calls(
        &self,
        heap: Global,
        session: &mut Session<'_>,
        text: &mut String,
    ) -> Result<(), AllocError>
        ensures made { OnOk result (AppendsEach self.now.calls.items session.old session.new (string_bytes text.old) (string_bytes text.new)) }
        ensures given { given_of session.new ≡ given_of session.old }
    {
        let loaded = session.stores().counts().nodes;
        for call in &self.calls {
            text.push_str("; ")?;
            text.push_str(call.make(heap, session, loaded)?.as_str())?;
        }
        Ok(())
    }
}

// The rooms of the three stores, in decimal, with commas between them.
fn rooms_of(heap: Global, word: &str) -> Result<Counts, Flaw>
    ensures { IfOk result (λ rooms. RoomsSaid rooms word.now) }
{
    let rooms: Vec<&str> = word.split(',').collect(heap)?;
    let [nodes, entries, text] = rooms.as_slice() else {
        return Err(Flaw::Malformed);
    };
    Ok(Counts {
        nodes: number_of(nodes.as_bytes())?,
        entries: number_of(entries.as_bytes())?,
        text: number_of(text.as_bytes())?,
    })
}

// What is switched off by 0, and on by 1. The library reads a `bool` otherwise.
fn switch_of(word: &str) -> Result<bool, Flaw>
    ensures { IfOk result (λ on. SwitchSaid on word.now) }
{
    match word {
        "0" => Ok(false),
        "1" => Ok(true),
        _ => Err(Flaw::Malformed),
    }
}
