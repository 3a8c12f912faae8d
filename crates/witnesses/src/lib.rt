// What shows that the definitions below are not empty, and not stronger than they have to be: worlds, runs, hosts and
// answers that meet them. Nothing stands on this crate.

#![tactic(auto)]

mod laws;

pub use laws::{
    each_answer_can_be_true, each_call_has_one_answer, each_kind_can_be_calm,
    each_try_does_one_thing, refused_loads_are_one, runs_tell, the_first_no_is_named,
    the_laws_apply, the_premises_ask_no_more,
};
