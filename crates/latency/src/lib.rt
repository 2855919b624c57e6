// Latency rules of the mesh chip: the least solution of a latency's equation, and the rules D, J and L. The bound that
// a rule tells is the least whole number within the flow's deadline that solves the rule's equation; there is none
// exactly if no number within the deadline solves it or, under rule J, a flow above has none. Each rule keeps the laws
// of a rule.
#![tactic(auto)]

mod analysis;
mod chip_rule;
mod jitters;
mod rule_d;
mod rule_j;
mod rule_l;
mod settled;
mod settling;
mod traffic;
mod without_jitter;

pub use rule_d::RuleD;
pub use rule_j::RuleJ;
pub use rule_l::RuleL;
