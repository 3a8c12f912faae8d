// A payoff is shortened in memory that the caller lends: from the bytes of its file to the records of what is left.

#![tactic(auto)]

mod checking;
mod known;
mod record;
mod shortening;
mod sweeping;

pub use checking::{Checked, check};
pub use known::Known;
pub use record::RECORD;
pub use shortening::{Shortened, shorten};
