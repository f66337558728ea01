// A draft of a dataflow table: rows that are edited under a change, and the ticket that answers for the change.

#![tactic(auto)]

pub mod changes;
pub mod draft;
pub mod edits;
pub mod reads;
pub mod ticket;
pub mod withdraw;
