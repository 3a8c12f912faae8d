// What the calls of a session do, as relations in specs/, and the laws of every list of them, which are the contracts
// here.

#![tactic(auto)]

mod answer;
mod laws;

pub use answer::{Outcome, SweepRefused, Swept};
pub use laws::{
    a_payoff_is_left, a_second_sweep_changes_nothing, a_silent_host_needs_no_word,
    a_sweep_ends_at_the_root, a_sweep_leaves_nothing, a_sweep_says_what_it_left, a_whole_session,
    each_rewrite_is_counted, hosts_stay_true, nobody_can_tell, nobody_can_tell_silent_calls,
    nobody_can_tell_with_true_hosts, true_hosts_can_be_had, what_hosts_allow,
};
