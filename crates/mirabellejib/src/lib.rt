// The functions for C: a payoff's file checked, and shortened in lent memory; texts escaped and cooked. Each asks nothing of its
// caller but that each slice is one.

#![tactic(auto)]

mod options;
mod payoffs;
mod report;
mod texts;
