// The rules by which a payoff gets shorter: what they decide stands in specs/, and the laws of it are the contracts
// here.

#![tactic(auto)]

mod laws;

pub use laws::{
    a_lawful_expression_is_a_payoff, a_rewrite_keeps_it_lawful, a_rewrite_makes_it_smaller,
    a_smaller_part_makes_the_whole_smaller, arrays_apart_is_pairwise, chain_keeps_meaning,
    chain_rewrites_exactly_when, interleaving_is_pairwise, method_keeps_meaning,
    method_rewrites_exactly_when, new_nodes_are_numbered_in_turn, old_parts_stay,
    only_parts_are_asked_of, property_keeps_meaning, property_rewrites_exactly_when, rule_examples,
    worked_examples,
};
