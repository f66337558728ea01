// Lists of calls on a draft: the calls, what each is answered, and a run of a whole list.

#![tactic(auto)]

pub mod calls;
pub mod outcome;
pub mod runs;
pub mod serves;
pub mod session;
pub mod strays;
