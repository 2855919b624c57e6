// Planning a job: the rule by which its flows are judged, and the calls by which a program in C has a sheet checked,
// written again, planned, and its plan compared with another's.
#![tactic(auto)]

pub mod job_rule;
mod planning;
mod replies;

pub use job_rule::{JobRule, rule_of};
pub use replies::PlanReply;
