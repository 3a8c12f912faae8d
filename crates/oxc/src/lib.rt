// The functions of oxc_minifier's replace_known_methods.rs that are ported, transcribed as definitions in specs/; that
// the port gives what they give is the contract of a law each.

#![tactic(auto)]

mod laws;

pub use laws::{
    the_rust_accesses_alike, the_rust_escapes_alike, the_rust_joins_chains_alike,
    the_rust_parts_from_the_standard, the_rust_replaces_methods_alike,
};
