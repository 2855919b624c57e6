// A set of flows, by number from 1 to 20, in no order. Its meaning is 20 marks, the first for flow 1.
ghost use Rattle.std.specs.Prelude.{◌^◌, ◌<◌};

mod flows;
mod single;
mod whole;

pub use flows::Flows;

// The largest flow number; a u8 as flow numbers are, where the chip's MAX_FLOWS counts.
pub const MOST_FLOWS: u8 = 20;

// The flow number g is in the set when the binary digit g - 1 is set.
// No model: a bare list of marks would not tell its holders that there are 20, as `marks_of` tells of every set.
#[derive(Clone, Copy)]
pub struct FlowSet {
    bits: u32,
    ghost small: { bits < 2 ^ 20 },
}
