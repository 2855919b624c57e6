// The flows of a set one after another, smallest first.
ghost use Rattle.std.specs.Prelude.{◌≡◌};
ghost use Rattle.std.specs.Iterator.{YieldsFirst, item_count};
ghost use Rattle.rule.specs.FlowSets.{marks_of, members, flows_left};

use crate::flow_set::FlowSet;

// The flows of a set that are still to come.
#[derive(Drop)]
pub struct Flows {
    left: FlowSet,
}

impl Iterator for Flows {
    type Item = u8;

    ghost next_gives = { YieldsFirst flows_left };

    ghost remaining = { item_count flows_left };

    fn next(&mut self) -> Option<u8> {
        self.left.pop()
    }
}

impl FlowSet {
    // The flows of the set, smallest first.
    pub fn iter(self) -> Flows
        ensures { flows_left result ≡ members (marks_of self) }
    {
        Flows { left: self }
    }
}

// `for f in set` goes through the flows of the set, smallest first.
impl IntoIterator for FlowSet {
    type Item = u8;

    type IntoIter = Flows;

    ghost into_iter_gives = { λ set flows. flows_left flows ≡ members (marks_of set) };

    fn into_iter(self) -> Flows {
        self.iter()
    }
}
