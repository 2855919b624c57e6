// A search for an order that passes, over the rule that it holds.
use crate::tables::Walk;

mod answers;
mod progress;

#[derive(Drop)]
pub struct Search<R> {
    rule: R,
    walk: Walk,
}

// A flow on its level, and its bound under the flows above it.
#[derive(Clone, Copy)]
pub struct Level {
    pub flow: u8,
    pub bound: u32,
}
