// Levels opened and orders tested by asking a rule.
ghost use Rattle.std.specs.Prelude.{◌≡◌};
ghost use Rattle.rule.specs.FlowSets.{marks_of};
ghost use Rattle.search.specs.Tables.{Settled, Entered, Tested};

use crate::candidates::gathered;
use crate::tables::{Stage, Walk};
use rule::{FlowSet, Rule};

// The flow by which a level is settled by ceiling, if it is: `sure` says that every lower one is, and only then are
// ceilings asked.
fn settled<R: Rule>(rule: &R, sure: bool, free: FlowSet) -> Option<u8>
    ensures { Settled (R.Rule.meaning rule.now) sure (marks_of free) result }
{
    if !sure {
        return None;
    }
    gathered(rule, |f, others| rule.ceiling(f, others), free).chosen()
}

impl Walk {
    // Opens the level to be filled: its candidates, and the times by which the next of them is chosen.
    pub(crate) fn enter<R: Rule>(&mut self, rule: &R)
        ensures { Entered (R.Rule.meaning rule.now) self.old self.new }
    {
        let free = self.free_flows();
        let mut candidates = gathered(rule, |f, others| rule.floor(f, others), free);
        let by_ceiling = settled(rule, self.sure, free);
        if let Some(f) = by_ceiling {
            candidates.set = FlowSet::none().with(f);
        }
        self.sure = by_ceiling.is_some();
        self.candidates[self.level as usize - 1] = candidates;
    }

    // Tests the order: it ends the walk if every flow has a bound.
    pub(crate) fn test<R: Rule>(&mut self, rule: &R)
        ensures { Tested (R.Rule.meaning rule.now) self.old self.new }
    {
        match rule.bounds(self.order()) {
            Ok(told) if told.count == self.flows => self.stage = Stage::Order(told.ticks),
            _ => self.sure = false,
        }
    }
}
