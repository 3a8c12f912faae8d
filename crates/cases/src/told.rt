// What a session answers, as an item of a line.
ghost use Rattle.std.specs.Prelude.{◌≡◌, Some};
ghost use Rattle.cases.specs.Items.{item_of, end_of};

use model::{Outcome, SweepRefused, Swept};
use script::Answer as Reply;
use session::{Answer, Ended};
use std::fmt;
use store::Counts;

// An answer that `{}` tells.
#[derive(Clone, Copy)]
pub struct Told(pub Answer);

impl fmt::Display for Told {
    ghost output = { λ t. Some (item_of t.0) };

    fn fmt<W: fmt::Write>(&self, f: &mut fmt::Formatter<W>) -> fmt::Result {
        match self.0 {
            Answer::Moved(Ok(())) => f.write_str("ok"),
            Answer::Tried(Ok(Outcome::Kept)) => f.write_str("kept"),
            Answer::Tried(Ok(Outcome::Rewritten)) => f.write_str("rewritten"),
            Answer::Swept(
                Ok(
                    Swept {
                        rewrites,
                        rounds,
                        left,
                    },
                ),
            ) => write!(f, "swept {rewrites} {rounds} {}", u8::from(left)),
            Answer::Moved(Err(fault)) | Answer::Tried(Err(fault)) => {
                write!(f, "{}", Reply::Refused(fault))
            }
            Answer::Swept(Err(SweepRefused { fault, rewrites })) => {
                write!(f, "{} after {rewrites}", Reply::Refused(fault))
            }
        }
    }
}

// What `{}` tells of the end of a session.
#[derive(Clone, Copy)]
pub struct End {
    root: u32,
    rewrites: u32,
    counts: Counts,
}

impl End {
    pub fn of(ended: &Ended<'_>) -> End
        ensures root { result.root ≡ ended.now.root }
        ensures rewrites { result.rewrites ≡ ended.now.rewrites }
        ensures counts { result.counts ≡ ended.now.counts }
    {
        End {
            root: ended.root,
            rewrites: ended.rewrites,
            counts: ended.counts,
        }
    }
}

impl fmt::Display for End {
    ghost output = { λ e. Some (end_of e.root e.rewrites e.counts) };

    fn fmt<W: fmt::Write>(&self, f: &mut fmt::Formatter<W>) -> fmt::Result {
        let End {
            root,
            rewrites,
            counts,
        } = *self;
        let Counts {
            nodes,
            entries,
            text,
        } = counts;
        write!(f, "end {root} {rewrites} {nodes} {entries} {text}")
    }
}
