// A rule of one's own, as an example: a chip without contention, on which no flow delays another.
#![tactic(auto)]

pub mod flow;
pub mod uncontended;

pub use flow::Flow;
pub use uncontended::Uncontended;
