// The calls that a case makes.
ghost use Rattle.std.specs.Prelude.{◌≡◌, IfOk, string_bytes};
ghost use Rattle.session.specs.Following.{given_of};
ghost use Rattle.session.specs.Calling.{call_of};

use super::host_word::HostWord;
use super::printing::Shown;
use super::told::Told;
use host::{Host, Silent};
use script::{Flaw, number_of};
use session::{Call, Session};
use std::alloc::{AllocError, Global};
use std::str::FromStr;

// A call that a host is asked in.
#[derive(Clone, Copy)]
pub(crate) enum Trial {
    Chain,
    Method,
    Property,
    Sweep,
}

impl FromStr for Trial {
    type Err = Flaw;

    fn from_str(word: &str) -> Result<Trial, Flaw> {
        match word {
            "chain" => Ok(Trial::Chain),
            "method" => Ok(Trial::Method),
            "property" => Ok(Trial::Property),
            "sweep" => Ok(Trial::Sweep),
            _ => Err(Flaw::Malformed),
        }
    }
}

impl Trial {
    ghost use Rattle.cases.specs.Items.{call_of_trial};

    // The call, with its host.
    fn with<H: Host>(self, host: &H) -> Call<'_, H>
        ensures { call_of H.answers result ≡ call_of_trial self (H.answers host.now) }
    {
        match self {
            Trial::Chain => Call::Chain(host),
            Trial::Method => Call::Method(host),
            Trial::Property => Call::Property(host),
            Trial::Sweep => Call::Sweep(host),
        }
    }
}

// A call of a session, or a look at its tree, which a word names.
#[derive(Drop)]
pub(crate) enum CaseCall {
    Enter(u32),
    Leave,
    Try(Trial, HostWord),
    Tree,
}

impl CaseCall {
    ghost use Rattle.cases.specs.Items.{MakesOne};

    // Reads a word.
    pub(crate) fn parse(heap: Global, word: &str) -> Result<CaseCall, Flaw> {
        match word.split_once(':') {
            None if word == "leave" => Ok(CaseCall::Leave),
            None if word == "tree" => Ok(CaseCall::Tree),
            None => Err(Flaw::Malformed),
            Some(("enter", child)) => Ok(CaseCall::Enter(child_of(child)?)),
            Some((trial, host)) => Ok(CaseCall::Try(trial.parse()?, HostWord::parse(heap, host)?)),
        }
    }

    // Makes the call in a session on so many loaded nodes, and says what it answers.
    pub(crate) fn make(
        &self,
        heap: Global,
        session: &mut Session<'_>,
        loaded: usize,
    ) -> Result<String, AllocError>
        ensures made { IfOk result (λ item. MakesOne loaded self.now session.old session.new (string_bytes item)) }
        ensures given { given_of session.new ≡ given_of session.old }
    {
        let answer = match self {
            CaseCall::Enter(child) => session.make::<Silent>(&Call::Enter(*child)),
            CaseCall::Leave => session.make::<Silent>(&Call::Leave),
            CaseCall::Try(trial, word) => {
                let names = word.names(heap)?;
                session.make(&trial.with(&word.host(names.as_slice(), loaded)))
            }
            CaseCall::Tree => {
                return format!(in heap; "{}", Shown::of(session.stores(), session.root()));
            }
        };
        format!(in heap; "{}", Told(answer))
    }
}

// Which child a word names. No node has as many as 32 bits count, so a larger number names none either.
fn child_of(word: &str) -> Result<u32, Flaw> {
    Ok(u32::try_from(number_of(word.as_bytes())?).unwrap_or(u32::MAX))
}
