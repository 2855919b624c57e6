// Any of the latency rules D, J and L, as one type that is a rule.
#![tactic(auto)]

mod any_rule;

pub use any_rule::AnyRule;
