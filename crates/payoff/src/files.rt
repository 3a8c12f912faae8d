// Payoffs in files.
use super::options::Options;
use super::packet::packet_len;
use super::progress::Progress;
use super::records::{Fate, Record, table};
use super::sweeping::sweep;
use anyhow::{anyhow, bail, ensure};
use base::Fault;
use cases::{End, Memory, Shown, Told};
use file::{Loaded, load};
use script::Answer as Reply;
use session::{Answer, Ended};
use std::rt::Files;
use std::time::Clock;
use std::{fs, io};
use store::Counts;

// The payoff of a quote, in the folder that the program is run in.
const QUOTE: &str = "quote.payoff";

// Where the answer to one call is written.
const UNANSWERED: [Answer; 1] = [Answer::Moved(Ok(()))];

// Shortens the quote's payoff, and prints what it was, what is left of it, and how long a packet is with either.
pub fn treat_quote(rt: &(impl Files + Print + AllocGlobal)) -> anyhow::Result<()> {
    shorten_quote(rt).map_err(|error| anyhow!("{QUOTE}: {error}"))
}

// Does so, with an error that does not name the file.
fn shorten_quote(rt: &(impl Files + Print + AllocGlobal)) -> anyhow::Result<()> {
    let heap = rt.alloc();
    let file = fs::read(rt, QUOTE)?;
    let mut memory = Memory::for_any_file(heap)?;
    match load(file.as_slice(), memory.stores()) {
        Ok(loaded) => {
            print_loaded(rt, file.len(), &loaded)?;
            let nodes = loaded.stores().counts().nodes;
            let options = Options::of_quote(heap);
            let names = options.host.names(heap)?;
            let host = options.host.host(names.as_slice(), nodes);
            let mut answers = UNANSWERED;
            let ended = sweep(loaded, options.support, &host, &mut answers);
            print_left(rt, &ended, answers[0])?;
            let len = packet_len(&ended.stores, ended.root);
            println!(rt; "packet    {} bytes before, {len} bytes after", file.len())?;
            Ok(())
        }
        Err(refused) => Err(refusal(refused.fault)),
    }
}

// Prints what was loaded from a file of so many bytes.
fn print_loaded(rt: &impl Print, len: usize, loaded: &Loaded<'_>) -> anyhow::Result<()> {
    println!(rt; "file      {QUOTE}, {len} bytes")?;
    print_counts(rt, "holds", loaded.stores().counts())?;
    println!(rt; "before    {}", Shown::new(loaded))?;
    Ok(())
}

// Prints what is left, and what the sweep answered.
fn print_left(rt: &impl Print, ended: &Ended<'_>, answer: Answer) -> anyhow::Result<()> {
    println!(rt; "after     {}", Shown::of(&ended.stores, ended.root))?;
    match answer {
        Answer::Swept(Ok(swept)) => {
            println!(rt;
                "swept     {} rewrites in {} rounds",
                swept.rewrites, swept.rounds
            )?;
        }
        other => bail!("{}", Told(other)),
    }
    print_counts(rt, "left", ended.counts)
}

fn print_counts(rt: &impl Print, word: &str, counts: Counts) -> anyhow::Result<()> {
    let Counts {
        nodes,
        entries,
        text,
    } = counts;
    println!(rt; "{word:<9} {nodes} nodes, {entries} list entries, {text} bytes of text")?;
    Ok(())
}

// Prints the tree of each file, and says of each other one why it has none.
pub fn show_all(
    rt: &(impl Files + Print + Eprint + AllocGlobal),
    paths: &[String],
) -> anyhow::Result<()> {
    for_all(rt, paths, |path| show(rt, path))
}

// Prints what is left of the payoff of each file, and says of each other one why there is none. Writes the table of all
// files where one is asked for, and shows progress where somebody watches.
pub fn shorten_all(
    rt: &(impl Files + Clock + Print + Eprint + AllocGlobal),
    options: &Options,
    watched: bool,
) -> anyhow::Result<()> {
    let mut progress = Progress::new(rt, watched);
    let mut records = Vec::new(rt.alloc());
    let mut bad = 0usize;
    for path in options.paths.as_slice() {
        let mut fate = Fate::Unread;
        let done = shorten(rt, options, path.as_str(), &mut progress, &mut fate);
        if let Err(error) = done {
            progress.erase(rt);
            eprintln!(rt; "{path}: {error}")?;
            bad = bad.saturating_add(1);
        }
        records.push(Record {
            file: path.as_str(),
            fate,
        })?;
        progress.show(rt, records.len(), options.paths.len());
    }
    progress.erase(rt);
    let done = none_bad(bad, options.paths.len());
    match &options.csv {
        Some(path) => with_table(rt, path.as_str(), records.as_slice(), done),
        None => done,
    }
}

// Writes the table, whatever was done. If it cannot be written, that is what the program ends with.
fn with_table(
    rt: &(impl Files + Eprint + AllocGlobal),
    path: &str,
    records: &[Record<'_>],
    done: anyhow::Result<()>,
) -> anyhow::Result<()> {
    let text = table(rt.alloc(), records)?;
    match (done, fs::write(rt, path, text.as_slice())) {
        (done, Ok(())) => done,
        (Ok(()), Err(error)) => bail!("{path}: {error}"),
        (Err(bad), Err(error)) => {
            eprintln!(rt; "payoff: {bad}")?;
            bail!("{path}: {error}")
        }
    }
}

// Does with each file what `treat` does, and says of each other one why it cannot.
fn for_all<F>(rt: &impl Eprint, paths: &[String], treat: F) -> anyhow::Result<()>
where
    F: Fn(&str) -> anyhow::Result<()>,
    requires { F.IsAlwaysCallable treat }
{
    let mut bad = 0usize;
    for path in paths {
        if let Err(error) = treat(path.as_str()) {
            eprintln!(rt; "{path}: {error}")?;
            bad = bad.saturating_add(1);
        }
    }
    none_bad(bad, paths.len())
}

// Whether none of so many files was bad.
fn none_bad(bad: usize, files: usize) -> anyhow::Result<()> {
    ensure!(bad == 0, "refused {bad} of {files} files");
    Ok(())
}

fn show(rt: &(impl Files + Print + AllocGlobal), path: &str) -> anyhow::Result<()> {
    let file = fs::read(rt, path)?;
    let mut memory = Memory::for_any_file(rt.alloc())?;
    match load(file.as_slice(), memory.stores()) {
        Ok(loaded) => Ok(print_tree(rt, path, &loaded)?),
        Err(refused) => Err(refusal(refused.fault)),
    }
}

fn print_tree(rt: &impl Print, path: &str, loaded: &Loaded<'_>) -> io::Result<()> {
    println!(rt; "{path}: {}", Shown::new(loaded))
}

// What became of the file is written to `fate`, which holds `Unread` before.
fn shorten(
    rt: &(impl Files + Print + Eprint + AllocGlobal),
    options: &Options,
    path: &str,
    progress: &mut Progress,
    fate: &mut Fate,
) -> anyhow::Result<()> {
    let heap = rt.alloc();
    let file = fs::read(rt, path)?;
    let mut memory = Memory::for_any_file(heap)?;
    match load(file.as_slice(), memory.stores()) {
        Ok(loaded) => {
            let names = options.host.names(heap)?;
            let nodes = loaded.stores().counts().nodes;
            let host = options.host.host(names.as_slice(), nodes);
            let mut answers = UNANSWERED;
            let ended = sweep(loaded, options.support, &host, &mut answers);
            let len = packet_len(&ended.stores, ended.root);
            *fate = Fate::of_sweep(file.len(), len, answers[0]);
            progress.erase(rt);
            Ok(print_end(rt, path, &ended, answers[0])?)
        }
        Err(refused) => {
            *fate = Fate::Refused {
                before: file.len(),
                fault: refused.fault,
            };
            Err(refusal(refused.fault))
        }
    }
}

// Prints what is left, what the sweep answered, and how the session ended.
fn print_end(rt: &impl Print, path: &str, ended: &Ended<'_>, answer: Answer) -> io::Result<()> {
    let left = Shown::of(&ended.stores, ended.root);
    println!(rt; "{path}: {left}; {}; {}", Told(answer), End::of(ended))
}

// Why a file has no tree.
fn refusal(fault: Fault) -> anyhow::Error {
    anyhow!("{}: {fault}", Reply::Refused(fault))
}

#[cfg(test)]
mod tests {
    use super::*;

    // What is printed for each fault.
    const IN_WORDS: [(Fault, &str); 13] = [
        (
            Fault::BadHeader,
            "refused 1 layer 2 node 0: the file is shorter than a header, or of another version",
        ),
        (
            Fault::BadSizes,
            "refused 2 layer 2 node 0: its counts are out of range, or its sections do not fill it",
        ),
        (
            Fault::StoresTooSmall,
            "refused 3 layer 2 node 0: the stores are too small for the file",
        ),
        (
            Fault::BadRecord(4095),
            "refused 4 layer 2 node 4095: the record of node 4095 is unlawful on its own",
        ),
        (
            Fault::BadLink(17),
            "refused 5 layer 2 node 17: the root is wrong, or node 17 has a wrong link or a wrong number of parents",
        ),
        (
            Fault::NoChild(3),
            "refused 6 layer 3 node 3: node 3 has no such child",
        ),
        (
            Fault::PathFull(256),
            "refused 7 layer 3 node 256: the path to node 256 is too long to go further",
        ),
        (
            Fault::AtRoot(12),
            "refused 8 layer 3 node 12: node 12 is the root",
        ),
        (
            Fault::NodesFull(9),
            "refused 9 layer 2 node 9: there is no space for the nodes that are to replace node 9",
        ),
        (
            Fault::EntriesFull(10),
            "refused 10 layer 2 node 10: there is no space for the lists of what is to replace node 10",
        ),
        (
            Fault::TextFull(0),
            "refused 11 layer 2 node 0: there is no space for the texts of what is to replace node 0",
        ),
        (
            Fault::Malformed,
            "refused 12 layer 1 node 0: the text is unlawful, or the raw template text malformed",
        ),
        (
            Fault::Overfull,
            "refused 13 layer 1 node 0: the output is too small",
        ),
    ];

    #[test]
    fn each_fault_in_words(rt: HostRuntime) {
        for (fault, words) in IN_WORDS {
            let printed = format!(in rt.alloc(); "{}", refusal(fault)).expect(&rt, "memory");
            assert_eq!(rt; printed.as_str(), words);
        }
    }
}
