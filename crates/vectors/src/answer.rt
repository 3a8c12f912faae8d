use std::fmt;

// What a line is answered with.
#[derive(Drop)]
pub enum Answer {
    Lawful(bool),
    Count(usize),
    Unit(Option<u16>),
    // What the line protocol answers too: a text, a refusal, or that the line is malformed.
    Script(script::Answer),
}

impl fmt::Display for Answer {
    fn fmt<W: fmt::Write>(&self, f: &mut fmt::Formatter<W>) -> fmt::Result {
        match self {
            Answer::Lawful(true) => f.write_str("yes"),
            Answer::Lawful(false) => f.write_str("no"),
            Answer::Count(units) => write!(f, "ok {units}"),
            Answer::Unit(Some(unit)) => write!(f, "ok {unit:04x}"),
            Answer::Unit(None) => f.write_str("none"),
            Answer::Script(answer) => write!(f, "{answer}"),
        }
    }
}
