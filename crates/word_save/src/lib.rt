// The rows of a table saved as words.

#![tactic(auto)]

pub mod fault;
pub mod save;
