// The text of a script of calls on a draft.

#![tactic(auto)]

mod line;
pub mod parser;
pub mod script;
