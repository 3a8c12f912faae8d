// The file of a payoff: its header, its records, and loading it into stores.

#![tactic(auto)]

mod header;
mod laws;
mod loaded;
mod record;
mod records;
mod sections;

pub use header::{MAX_ENTRIES, MAX_NODES, MAX_TEXT};
pub use laws::{lawful_exactly_where_granted, same_contents_same_file};
pub use loaded::{Loaded, Refused, load};
