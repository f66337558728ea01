// The words of a line of a script.

#![tactic(auto)]

pub mod expected;
pub mod lexer;
pub mod token;
