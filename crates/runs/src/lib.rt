// A list of calls on a search, made one after another: `run` opens a search on any rule, makes the calls and gives the
// search and the reply to each. Its contract carries the whole promise of the search, for every rule and every list
// of calls.
#![tactic(auto)]

mod calls;
mod running;

pub use calls::{Answer, Call, Reply};
pub use running::run;
