// The text of the answers to a list of calls.

#![tactic(auto)]

pub mod printer;
