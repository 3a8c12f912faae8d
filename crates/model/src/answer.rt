use base::Fault;

// What a rule did where the cursor is.
#[derive(Clone, Copy, Debug, PartialEq, Eq)]
pub enum Outcome {
    Kept,
    Rewritten,
}

// What a sweep did.
#[derive(Clone, Copy, Debug, PartialEq, Eq)]
pub struct Swept {
    pub rewrites: u32,
    pub rounds: u32,
    // Whether places stayed unvisited in the last round, for being too far down.
    pub left: bool,
}

// Why a sweep was refused, and how many rewrites it had made, which stay.
#[derive(Clone, Copy, Debug, PartialEq, Eq)]
pub struct SweepRefused {
    pub fault: Fault,
    pub rewrites: u32,
}
