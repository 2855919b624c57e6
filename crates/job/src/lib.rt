// The job of planning a sheet: a rule by its letter, the sheet, a reserve and pairs.
#![tactic(auto)]

pub mod job;

pub use job::Job;
