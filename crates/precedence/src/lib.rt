// The precedence layer: a rule made of any rule below, which gives nothing to the first flow of a pair under the later
// one.
#![tactic(auto)]

mod pair;
mod pairs;
mod precedence;

pub use pair::Pair;
pub use precedence::Precedence;
