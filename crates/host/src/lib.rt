// What a host says of a payoff: which of its nodes have effects, of which type their values are, and which names are
// the language's own.

#![tactic(auto)]

mod host;
mod laws;
mod row;
mod silent;
mod structural;
mod table;
mod value_type;

pub use host::Host;
pub use laws::{
    a_table_is_true_where_its_entries_are, the_hypotheses_can_be_met, the_silent_host_is_true,
    the_structural_host_is_true, what_is_true_stays_true,
};
pub use row::Row;
pub use silent::Silent;
pub use structural::Structural;
pub use table::Table;
pub use value_type::ValueType;
