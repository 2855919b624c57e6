// Both layers under one name: the reserve (crate reserve), which adds ticks to every bound, floor and ceiling, and the
// precedence (crate precedence), which gives nothing to the first flow of a pair under the later one.
#![tactic(auto)]

pub use precedence::{Pair, Precedence};
pub use reserve::Reserve;
