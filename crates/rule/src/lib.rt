// What a rule is: sets of flows, the meaning of a rule, its laws, and the trait by which any rule is asked.
#![tactic(auto)]

pub mod bounds;
pub mod flow_set;
pub mod proper;
pub mod questions;

pub use bounds::Bounds;
pub use flow_set::{FlowSet, Flows};
pub use proper::{is_distinct, is_flow, is_proper, is_proper_set};
pub use questions::Rule;
