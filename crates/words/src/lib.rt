// Tables of 32-bit words: the format, the records that they are made of, and the rows loaded from them.

#![tactic(auto)]

pub mod fault;
mod head;
pub mod load;
mod place;
pub mod record;
pub mod word;
