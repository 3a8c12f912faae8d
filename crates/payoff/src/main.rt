// Texts, raw template text, and payoffs in files: what the library does, on a quote's payoff, on the label of a quote,
// on files, or for each request of a script.

#![tactic(auto)]

mod files;
mod label;
mod options;
mod packet;
mod plain_world;
mod progress;
mod records;
mod sweeping;

use anyhow::bail;
use options::Options;
use std::env;
use std::io::IsTerminal;
use std::process::ExitCode;
use std::rt::{Env, Files};
use std::time::Clock;

const HELP: &str =
    "payoff              shorten the payoff of a quote, from the file quote.payoff of this folder, and print it before and after
payoff label        escape the label of a quote into template text, cook it back, and compare
payoff show FILE..  print the tree of each file, as PATH: TREE; the status is 1 where a file has none
payoff shorten [OPTION..] FILE..
                    shorten the payoff of each file, and print PATH: TREE; swept REWRITES ROUNDS LEFT; end ROOT REWRITES
                    NODES ENTRIES BYTES; the status is 1 where a file has none
                        --host HOST          who is asked: silent, structural (unless told otherwise),
                                             structural=NAME,NAME with bound names, or table=PATH
                        --no-templates       the engine knows no template literals
                        --no-power           the engine does not know the operator **
                        --csv PATH           also write what became of each file to PATH, as a table
payoff script       answer the requests on standard input, one to a line:
                        escape HEX [ROOM]    the raw template text of a text
                        cook HEX [ROOM]      the text that raw template text cooks to
                        case HEX NODES,ENTRIES,BYTES TEMPLATES POWER CALL..
                                             what comes of loading a file, and of each call of a session on it
                    HEX is lower-case hexadecimal, two digits to a byte; ROOM is the size of the output in bytes
                    NODES,ENTRIES,BYTES are the sizes of the stores; TEMPLATES and POWER are 0 or 1
                    a CALL is enter:CHILD, leave, chain:HOST, method:HOST, property:HOST, sweep:HOST, or tree
                    a HOST is silent, structural, structural=NAME,NAME or table=HEX, one byte for each loaded node
                    the answer is: ok HEX, refused NUMBER layer LAYER node NODE, or malformed
                    a loaded case is answered: loaded; ANSWER..; end ROOT REWRITES NODES ENTRIES BYTES
payoff help         print this";

// What the program is asked to do.
#[derive(Drop)]
enum Command {
    Quote,
    Label,
    Show(Vec<String>),
    Shorten(Options),
    Script,
    Help,
}

impl Command {
    // Reads the arguments, the program's own name first.
    fn parse(rt: &(impl Files + AllocGlobal), mut args: env::Args) -> anyhow::Result<Command> {
        let _name = args.next();
        let Some(word) = args.next() else {
            return Ok(Command::Quote);
        };
        let rest: Vec<String> = args.collect(rt.alloc())?;
        match (word.as_str(), rest.is_empty()) {
            ("show", false) => Ok(Command::Show(rest)),
            ("shorten", _) => {
                let words: Vec<&str> = rest.iter().map(|word| word.as_str()).collect(rt.alloc())?;
                Ok(Command::Shorten(Options::parse(rt, words.as_slice())?))
            }
            ("show", true) => bail!("show which files? See payoff help"),
            ("label", true) => Ok(Command::Label),
            ("script", true) => Ok(Command::Script),
            ("help", true) => Ok(Command::Help),
            ("label" | "script" | "help", false) => bail!("more than one word: see payoff help"),
            _ => bail!("no command `{word}`: see payoff help"),
        }
    }
}

fn main(rt: HostRuntime) -> ExitCode {
    match run(&rt, rt.stderr().is_terminal()) {
        Ok(()) => ExitCode::SUCCESS,
        Err(error) => {
            let _ = eprintln!(rt; "payoff: {error}");
            ExitCode::FAILURE
        }
    }
}

// Does what the arguments ask for. Somebody watches where standard error is a terminal.
fn run(
    rt: &(impl Env + Files + Clock + Input + Print + Eprint + AllocGlobal),
    watched: bool,
) -> anyhow::Result<()> {
    match Command::parse(rt, env::args(rt)?)? {
        Command::Quote => files::treat_quote(rt)?,
        Command::Label => label::show(rt)?,
        Command::Show(paths) => files::show_all(rt, paths.as_slice())?,
        Command::Shorten(options) => files::shorten_all(rt, &options, watched)?,
        Command::Script => cases::serve(rt)?,
        Command::Help => println!(rt; "{HELP}")?,
    }
    Ok(())
}
