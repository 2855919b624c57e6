// One flow and a set: whether it is in the set, the set with it and without it, and the smallest flow taken out.
ghost use Rattle.std.specs.Prelude.{◌≡◌, ◌^◌, ◌<◌, true, false};
ghost use Rattle.rule.specs.Lists.{has};
ghost use Rattle.rule.specs.FlowSets.{marks_of, digit_of, put, Popped};

use crate::flow_set::{FlowSet, MOST_FLOWS};

// The number whose one binary digit marks flow g. A number that is no flow has no digit: its 0 is the empty set, and no
// code.
fn digit_of(g: u8) -> u32
    ensures value { result ≡ digit_of 20 g }
    ensures small { result < 2 ^ 20 }
{
    if g == 0 || g > MOST_FLOWS {
        return 0;
    }
    1 << (g - 1)
}

impl FlowSet {
    // Whether flow g is in the set; a number outside 1 to 20 is in no set.
    pub fn has(self, g: u8) -> bool
        ensures { result ≡ has (marks_of self) g }
    {
        self.bits & digit_of(g) != 0
    }

    // The set with flow g in it; a number outside 1 to 20 changes nothing.
    pub fn with(self, g: u8) -> FlowSet
        ensures { marks_of result ≡ put (marks_of self) g true }
    {
        FlowSet {
            bits: self.bits | digit_of(g),
        }
    }

    // The set with flow g out of it.
    pub fn without(self, g: u8) -> FlowSet
        ensures { marks_of result ≡ put (marks_of self) g false }
    {
        FlowSet {
            bits: self.bits - (self.bits & digit_of(g)),
        }
    }

    // Takes the smallest flow out of the set; nothing if the set is empty.
    pub fn pop(&mut self) -> Option<u8>
        ensures { Popped result (marks_of self.old) (marks_of self.new) }
    {
        let bits = self.bits;
        if bits == 0 {
            return None;
        }
        *self = FlowSet {
            bits: bits & (bits - 1),
        };
        Some(bits.trailing_zeros() as u8 + 1)
    }
}
