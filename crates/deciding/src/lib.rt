// What the rules make of a node of the stores: they keep it, or plan what takes its place. A rule reads what it needs
// of the stores and asks a host; nothing is written here.

#![tactic(auto)]

mod arguments;
mod chain_arguments;
mod chain_calls;
mod chain_joining;
mod concat_chain;
mod integer_index;
mod methods;
mod need;
mod pieces;
mod place;
mod plan;
mod property_access;

pub use chain_calls::collect_arguments;
pub use chain_joining::chain;
pub use concat_chain::{ConcatChain, MAX_CALLS, MAX_NODES, Root};
pub use methods::method;
pub use place::{Place, Support};
pub use plan::{Calls, Decision, Exponent, Plan};
pub use property_access::property;
