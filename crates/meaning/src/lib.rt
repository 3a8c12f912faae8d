// What a payoff means: the definitions stand in specs/, and the laws of them are the contracts here.

#![tactic(auto)]

mod engine;
mod laws;

pub use engine::Engine;
pub use laws::{
    a_calm_run_is_a_run, a_payoff_is_one_expression, a_run_is_determined,
    alike_expressions_replace_each_other, no_run_depends_on_numbers, the_engine_agrees,
    the_premises_can_be_met, whole_examples,
};
