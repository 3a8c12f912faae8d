// What the Rust gives and what the port gives. Each function's contract states it, and its body does nothing.
ghost use Rattle.oxc.specs.Parting.{TheRustPartsFromTheStandard};
ghost use Rattle.oxc.specs.Laws.{TheRustEscapesAlike, TheRustAccessesAlike, TheRustReplacesMethodsAlike, TheRustJoinsChainsAlike};

// Escaping a text into the raw text of a template.
pub fn the_rust_escapes_alike()
    ensures { TheRustEscapesAlike }
{}

// Reading a literal at an index.
pub fn the_rust_accesses_alike()
    ensures { TheRustAccessesAlike }
{}

// Calls of known methods.
pub fn the_rust_replaces_methods_alike()
    ensures { TheRustReplacesMethodsAlike }
{}

// Chains of `concat`.
pub fn the_rust_joins_chains_alike()
    ensures { TheRustJoinsChainsAlike }
{}

// There is a payoff that `replace_concat_chain` changes in what it does, in a world with the premises.
pub fn the_rust_parts_from_the_standard()
    ensures { TheRustPartsFromTheStandard }
{}
