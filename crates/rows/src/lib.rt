// The rows of a dataflow table: one actor or one channel, with the checks that it passes.

#![tactic(auto)]

pub mod checks;
pub mod fault;
pub mod row;
pub mod values;
