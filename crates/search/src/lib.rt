// The search for an order of flows that passes, over any rule: opened on a rule, which it holds, advanced by placings,
// and asked for its outcome, its count of placings, the flow and bound on a level, its plan, and whether its plan is
// that of another search. It follows the walk (crate walk), placing by placing. A list of calls on a search, with
// the promise on all of them together, is crate runs.
#![tactic(auto)]

mod candidates;
mod levels;
mod moves;
mod opening;
mod placing;
mod plan;
mod searching;
mod tables;

pub use plan::{LEVEL_BYTES, MAX_PLAN, TAIL_BYTES};
pub use searching::{Level, Search};
pub use tables::Outcome;
