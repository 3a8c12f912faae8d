// The calls of a session, as values.
use base::Fault;
use model::{Outcome, SweepRefused, Swept};

// A call of a session, with the host that it takes.
#[derive(Drop)]
pub enum Call<'h, H> {
    Enter(u32),
    Leave,
    Chain(&'h H),
    Method(&'h H),
    Property(&'h H),
    Sweep(&'h H),
}

// What a call answers.
#[derive(Clone, Copy, Debug, PartialEq, Eq)]
pub enum Answer {
    Moved(Result<(), Fault>),
    Tried(Result<Outcome, Fault>),
    Swept(Result<Swept, SweepRefused>),
}
