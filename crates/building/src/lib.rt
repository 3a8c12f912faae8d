// Builds what a plan is for, behind all that the stores hold.

#![tactic(auto)]

mod appending;
mod arrays;
mod calls;
mod joined_text;
mod joining;
mod plans;
mod quasi;
mod template_builder;

pub use plans::build;
