// What `payoff shorten` is asked for.
use anyhow::{anyhow, bail, ensure};
use cases::HostWord;
use deciding::Support;
use std::alloc::Global;
use std::fs;
use std::rt::Files;

// Which files are shortened, and how.
#[derive(Drop)]
pub struct Options {
    pub host: HostWord,
    pub support: Support,
    pub paths: Vec<String>,
    // Where a table of what became of the files is written.
    pub csv: Option<String>,
}

impl Options {
    // How a quote's payoff is shortened: by what its nodes say of themselves, for an engine of today.
    pub fn of_quote(heap: Global) -> Options {
        Options {
            host: HostWord::Structural(Vec::new(heap)),
            support: Support {
                templates: true,
                power: true,
            },
            paths: Vec::new(heap),
            csv: None,
        }
    }

    // Reads options and files. A table is read from the file that its word names.
    pub fn parse(rt: &(impl Files + AllocGlobal), words: &[&str]) -> anyhow::Result<Options> {
        let heap = rt.alloc();
        let mut options = Options::of_quote(heap);
        let mut rest = words;
        while let [word, more @ ..] = rest {
            rest = match (*word, more) {
                ("--no-templates", _) => {
                    options.support.templates = false;
                    more
                }
                ("--no-power", _) => {
                    options.support.power = false;
                    more
                }
                ("--host", [host, more @ ..]) => {
                    options.host = host_of(rt, host)?;
                    more
                }
                ("--csv", [path, more @ ..]) => {
                    options.csv = Some(String::from_str(heap, path)?);
                    more
                }
                (other, _) if other.starts_with("--") => return Err(refusal(other)),
                (path, _) => {
                    options.paths.push(String::from_str(heap, path)?)?;
                    more
                }
            };
        }
        ensure!(
            !options.paths.is_empty(),
            "shorten which files? See payoff help"
        );
        Ok(options)
    }
}

// Why a word with two dashes is no option as it stands.
fn refusal(word: &str) -> anyhow::Error {
    match word {
        "--host" => anyhow!("--host which? See payoff help"),
        "--csv" => anyhow!("--csv where? See payoff help"),
        other => anyhow!("no option `{other}`: see payoff help"),
    }
}

fn host_of(rt: &(impl Files + AllocGlobal), word: &str) -> anyhow::Result<HostWord> {
    if let Some(path) = word.strip_prefix("table=") {
        return Ok(HostWord::Table(fs::read(rt, path)?));
    }
    match HostWord::parse(rt.alloc(), word) {
        Ok(host) => Ok(host),
        Err(flaw) => bail!("`{word}` is no host: {flaw}"),
    }
}
