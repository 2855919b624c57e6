// A walk that enters its lowest level.
ghost use Rattle.std.specs.Prelude.{◌≤◌};
ghost use Rattle.search.specs.Searches.{Blank, Started};

use crate::candidates::Candidates;
use crate::tables::{Stage, Walk};
use rule::{FlowSet, Rule};

// A walk of so many flows, with nothing in its tables.
fn blank(flows: u8) -> Walk
    requires low { 1 ≤ flows }
    requires high { flows ≤ 20 }
    ensures { Blank flows result }
{
    let none = Candidates {
        set: FlowSet::none(),
        slack: [0; 20],
    };
    Walk {
        flows,
        level: flows,
        sure: true,
        placed: [0; 20],
        candidates: [none; 20],
        count: 0,
        stage: Stage::Open,
    }
}

// The walk over a rule before its first placing.
pub(crate) fn start<R: Rule>(rule: &R) -> Walk
    ensures { Started (R.Rule.meaning rule.now) result }
{
    let mut w = blank(rule.flows());
    w.enter(rule);
    w.move_on();
    w
}
