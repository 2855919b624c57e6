// The reserve layer: a rule made of any rule below, with ticks added to every bound, floor and ceiling.
#![tactic(auto)]

mod adding;
mod reserve;

pub use reserve::Reserve;
