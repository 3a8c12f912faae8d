// The tree of a payoff: the records of its nodes, what stored records mean, and the laws of changing them.

#![tactic(auto)]

mod laws;
mod node;
mod role;
mod run;

pub use laws::{
    a_number_denotes_one_tree, lawful_numbers_make_a_lawful_tree, lower_links_make_one_tree,
    one_changed_link_changes_one_place,
};
pub use node::{BinaryOperator, FirstChild, Node, UnaryOperator};
pub use role::{Child, Role, Sort};
pub use run::{ListRun, Run, TextRun};
