// A session over a loaded payoff: a cursor that moves in its tree, and the rules, tried where it is or everywhere.

#![tactic(auto)]

mod call;
mod session;
mod step;
mod taking;
mod whole;

pub use call::{Answer, Call};
pub use session::{Ended, Session};
pub use whole::run;
