// What became of files, and the table that tells it.
ghost use Rattle.std.specs.Prelude.{◌≡◌, IfOk, Some, map};
ghost use Rattle.csv.specs.Writing.{row_text, default_writer};
ghost use Rattle.payoff.specs.Records.{text_of, counts_of, fault_of, row_of, table_of};

use anyhow::bail;
use base::Fault;
use csv::Writer;
use model::{SweepRefused, Swept};
use session::Answer;
use std::alloc::Global;
use std::fmt;

// What became of a file. Lengths are in bytes: of the file, and of the packet that holds the tree that is left.
#[derive(Clone, Copy, Debug, PartialEq, Eq)]
pub enum Fate {
    // It could not be read, or memory was short.
    Unread,
    // It holds no payoff.
    Refused {
        before: usize,
        fault: Fault,
    },
    // Its sweep was refused.
    Stopped {
        before: usize,
        after: usize,
        refused: SweepRefused,
    },
    Swept {
        before: usize,
        after: usize,
        swept: Swept,
    },
}

impl Fate {
    // What became of a file that was swept, by what the sweep answered. No sweep gives another call's answer.
    pub fn of_sweep(before: usize, after: usize, answer: Answer) -> Fate {
        match answer {
            Answer::Swept(Ok(swept)) => Fate::Swept {
                before,
                after,
                swept,
            },
            Answer::Swept(Err(refused)) => Fate::Stopped {
                before,
                after,
                refused,
            },
            Answer::Moved(_) | Answer::Tried(_) => Fate::Unread,
        }
    }

    // What a row tells before the fault: the lengths before and after, rewrites, rounds, and whether places were left.
    fn counts(self) -> [Cell; 5]
        ensures { map text_of result ≡ counts_of self }
    {
        match self {
            Fate::Unread => [Cell::Empty; 5],
            Fate::Refused { before, .. } => [
                Cell::Number(before),
                Cell::Empty,
                Cell::Empty,
                Cell::Empty,
                Cell::Empty,
            ],
            Fate::Stopped {
                before,
                after,
                refused,
            } => [
                Cell::Number(before),
                Cell::Number(after),
                Cell::Number(refused.rewrites as usize),
                Cell::Empty,
                Cell::Empty,
            ],
            Fate::Swept {
                before,
                after,
                swept,
            } => [
                Cell::Number(before),
                Cell::Number(after),
                Cell::Number(swept.rewrites as usize),
                Cell::Number(swept.rounds as usize),
                Cell::Number(usize::from(swept.left)),
            ],
        }
    }

    // What a row tells of the fault.
    fn fault(self) -> Cell
        ensures { text_of result ≡ fault_of self }
    {
        match self {
            Fate::Unread => Cell::Unread,
            Fate::Refused { fault, .. } => Cell::Number(fault.number() as usize),
            Fate::Stopped { refused, .. } => Cell::Number(refused.fault.number() as usize),
            Fate::Swept { .. } => Cell::Number(0),
        }
    }
}

// A file, by its path as it was given, and what became of it.
#[derive(Clone, Copy)]
pub struct Record<'a> {
    pub file: &'a str,
    pub fate: Fate,
}

// A field of a row behind the file's name.
#[derive(Clone, Copy)]
enum Cell {
    Empty,
    Number(usize),
    Unread,
}

impl fmt::Display for Cell {
    ghost output = { λ c. Some (text_of c) };

    fn fmt<W: fmt::Write>(&self, f: &mut fmt::Formatter<W>) -> fmt::Result {
        match self {
            Cell::Empty => Ok(()),
            Cell::Number(number) => write!(f, "{number}"),
            Cell::Unread => f.write_str("unread"),
        }
    }
}

const HEADER: [&[u8]; 7] = [
    b"file",
    b"before",
    b"after",
    b"rewrites",
    b"rounds",
    b"left",
    b"fault",
];

// The table of these files as CSV: a header, and a row for each of them. Each line ends in LF.
pub fn table(heap: Global, records: &[Record<'_>]) -> anyhow::Result<Vec<u8>>
    ensures { IfOk result (λ text. text.items ≡ table_of records.now) }
{
    let mut text = line(heap, &HEADER)?;
    for one in records {
        text.extend_from_slice(row(heap, *one)?.as_slice())?;
    }
    Ok(text)
}

// The row of a file.
fn row(heap: Global, one: Record<'_>) -> anyhow::Result<Vec<u8>>
    ensures { IfOk result (λ text. text.items ≡ row_of one.entry) }
{
    let [before, after, rewrites, rounds, left] = one.fate.counts();
    line(
        heap,
        &[
            one.file.as_bytes(),
            before.to_string(heap)?.as_bytes(),
            after.to_string(heap)?.as_bytes(),
            rewrites.to_string(heap)?.as_bytes(),
            rounds.to_string(heap)?.as_bytes(),
            left.to_string(heap)?.as_bytes(),
            one.fate.fault().to_string(heap)?.as_bytes(),
        ],
    )
}

// A line of these fields.
fn line(heap: Global, fields: &[&[u8]]) -> anyhow::Result<Vec<u8>>
    ensures { IfOk result (λ text. text.items ≡ row_text default_writer (map (λ f. f.now) fields.now)) }
{
    let mut writer = Writer::from_writer(Vec::new(heap));
    if let Err(error) = writer.write_fields(fields) {
        bail!("{error}");
    }
    match writer.into_inner() {
        Ok(text) => Ok(text),
        Err(error) => bail!("{}", error.into_error()),
    }
}

#[cfg(test)]
mod tests {
    use super::*;
    use std::test::Fail;

    const SWEPT: Swept = Swept {
        rewrites: 5,
        rounds: 2,
        left: false,
    };

    // What became of a file `a`, and its row.
    const ROWS: [(Fate, &str); 6] = [
        (
            Fate::Swept {
                before: 972,
                after: 684,
                swept: SWEPT,
            },
            "a,972,684,5,2,0,0\n",
        ),
        (
            Fate::Swept {
                before: 52,
                after: 52,
                swept: Swept {
                    rewrites: 0,
                    rounds: 1,
                    left: true,
                },
            },
            "a,52,52,0,1,1,0\n",
        ),
        (
            Fate::Refused {
                before: 0,
                fault: Fault::BadHeader,
            },
            "a,0,,,,,1\n",
        ),
        (
            Fate::Refused {
                before: 972,
                fault: Fault::BadLink(17),
            },
            "a,972,,,,,5\n",
        ),
        (
            Fate::Stopped {
                before: 972,
                after: 700,
                refused: SweepRefused {
                    fault: Fault::TextFull(9),
                    rewrites: 3,
                },
            },
            "a,972,700,3,,,11\n",
        ),
        (Fate::Unread, "a,,,,,,unread\n"),
    ];

    // A path, and how a row begins with it.
    const NAMES: [(&str, &str); 9] = [
        ("quote.payoff", "quote.payoff"),
        ("", ""),
        ("two words; Strom '25", "two words; Strom '25"),
        ("öre/€.payoff", "öre/€.payoff"),
        ("a,b", "\"a,b\""),
        ("say \"so\"", "\"say \"\"so\"\"\""),
        ("\"", "\"\"\"\""),
        ("a\nb", "\"a\nb\""),
        ("a\rb", "\"a\rb\""),
    ];

    #[test]
    fn each_row(rt: HostRuntime) -> Result<(), Fail> {
        for (fate, line) in ROWS {
            let record = Record { file: "a", fate };
            assert_eq!(rt;
                row(rt.alloc(), record)?.as_slice(),
                line.as_bytes(),
                "{line}"
            );
        }
        Ok(())
    }

    #[test]
    fn each_name(rt: HostRuntime) -> Result<(), Fail> {
        let heap = rt.alloc();
        for (file, field) in NAMES {
            let record = Record {
                file,
                fate: Fate::Unread,
            };
            let line = format!(in heap; "{field},,,,,,unread\n")?;
            assert_eq!(rt; row(heap, record)?.as_slice(), line.as_bytes(), "{field}");
        }
        Ok(())
    }

    #[test]
    fn whole_table(rt: HostRuntime) -> Result<(), Fail> {
        let records = [
            Record {
                file: "b",
                fate: Fate::Unread,
            },
            Record {
                file: "a",
                fate: Fate::Swept {
                    before: 972,
                    after: 684,
                    swept: SWEPT,
                },
            },
        ];
        let text =
            "file,before,after,rewrites,rounds,left,fault\nb,,,,,,unread\na,972,684,5,2,0,0\n";
        assert_eq!(rt; table(rt.alloc(), &records)?.as_slice(), text.as_bytes());
        Ok(())
    }
}
