// A dataflow table: its rows, read by number and edited.

#![tactic(auto)]

pub mod edit;
pub mod edits;
pub mod reads;
pub mod storage;
