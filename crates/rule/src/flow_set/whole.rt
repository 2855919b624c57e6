// Sets as a whole: the empty set, the first flows, what two sets have in common, and how many flows a set has.
ghost use Rattle.std.specs.Prelude.{◌≡◌, not, []};
ghost use Rattle.rule.specs.Lists.{marks, within};
ghost use Rattle.rule.specs.FlowSets.{marks_of, first_flows, both, less, size, empty};

use crate::flow_set::{FlowSet, MOST_FLOWS};

impl FlowSet {
    // The set without a flow.
    pub fn none() -> FlowSet
        ensures { marks_of result ≡ marks [] }
    {
        FlowSet { bits: 0 }
    }

    // The flows that stand in a list; a number outside 1 to 20 is none.
    pub fn of(list: &[u8]) -> FlowSet
        ensures { marks_of result ≡ marks list.now }
    {
        list.iter().fold(FlowSet::none(), |set, g| set.with(*g))
    }

    // The flows up to n.
    pub fn first(n: u8) -> FlowSet
        ensures { marks_of result ≡ first_flows n }
    {
        let count = n.min(MOST_FLOWS);
        FlowSet {
            bits: (1 << count) - 1,
        }
    }

    // The flows that are in both sets.
    pub fn and(self, other: FlowSet) -> FlowSet
        ensures { marks_of result ≡ both (marks_of self) (marks_of other) }
    {
        FlowSet {
            bits: self.bits & other.bits,
        }
    }

    // The flows of this set that are not in the other.
    pub fn less(self, other: FlowSet) -> FlowSet
        ensures { marks_of result ≡ less (marks_of self) (marks_of other) }
    {
        FlowSet {
            bits: self.bits - (self.bits & other.bits),
        }
    }

    // Whether no flow is in the set.
    pub fn is_empty(self) -> bool
        ensures { result ≡ empty (marks_of self) }
    {
        self.bits == 0
    }

    // Whether some flow is in both sets.
    pub fn intersects(self, other: FlowSet) -> bool
        ensures { result ≡ not (empty (both (marks_of self) (marks_of other))) }
    {
        !self.and(other).is_empty()
    }

    // How many flows are in the set.
    pub fn size(self) -> u8
        ensures { result ≡ size (marks_of self) }
    {
        self.bits.count_ones() as u8
    }

    // Whether every flow of the set is at most n.
    pub fn is_within(self, n: u8) -> bool
        ensures { result ≡ within n (marks_of self) }
    {
        self.less(FlowSet::first(n)).is_empty()
    }
}
