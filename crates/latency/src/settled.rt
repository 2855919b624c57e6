// What is settled of a list of flows, from its highest downward.
ghost use Rattle.std.specs.Prelude.{◌≡◌, ◌≤◌, length};

use rule::{Bounds, FlowSet};

// What is settled of a flow: the flows above it, and its bound.
#[derive(Clone, Copy)]
pub struct Settlement {
    pub(crate) over: FlowSet,
    pub(crate) bound: u32,
    ghost few: { bound ≤ 1000000 },
}

// The flows settled so far, what is settled of each by its number, and the bounds by place.
#[derive(Clone, Copy)]
pub struct Settled {
    pub(crate) above: FlowSet,
    pub(crate) table: [Settlement; 20],
    pub(crate) told: Bounds,
    ghost sized: { length table ≡ 20 },
}
