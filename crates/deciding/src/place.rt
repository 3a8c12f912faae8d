// How a place takes its expression.
#[derive(Clone, Copy, Debug, PartialEq, Eq)]
pub enum Place {
    Ordinary,
    // As the object of a static member `concat`.
    ConcatObject,
    // As a callee, or as an opaque node takes its first child.
    Referred,
}

// Which of the newer forms of the language the payoff's engine knows.
#[derive(Clone, Copy, Debug, PartialEq, Eq)]
pub struct Support {
    pub templates: bool,
    // The operator `**`.
    pub power: bool,
}
