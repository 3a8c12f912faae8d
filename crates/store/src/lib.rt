// The memory that the caller lends: node records, list entries and text bytes, each a store of its own.

#![tactic(auto)]

mod raw;
mod store;
mod stores;

pub use store::Store;
pub use stores::{Counts, Stores};
