// The candidates of a level: which unplaced flows have a floor, or a ceiling, and how long before its deadline each is.
ghost use Rattle.std.specs.Prelude.{◌≡◌, ◌<◌, ◌^◌, ℕ, List, Bool, Option, Result};
ghost use Rattle.chip.specs.declared.refusal.Refusal.{Refusal};
ghost use Rattle.rule.specs.declared.flow_set.FlowSet.{FlowSet};
ghost use Rattle.rule.specs.FlowSets.{marks_of};
ghost use Rattle.search.specs.Candidates.{told_slack, time_told, Answers, Gathered, chosen_by};

use chip::Refusal;
use rule::{FlowSet, Rule};

// Flows to be tried on a level, and by flow how long before its deadline its answer is; 0 without one. At first the set
// has each flow with an answer; it loses those that are tried, and is one flow where the level is settled by ceiling.
#[derive(Clone, Copy)]
pub(crate) struct Candidates {
    pub(crate) set: FlowSet,
    // Numbers, not Options: a time is read only for flows of the set, and flows leave the set while their times stay.
    pub(crate) slack: [u32; 20],
}

// How long before the deadline an answer is; nothing without one.
fn slack_told(answer: Result<Option<u32>, Refusal>, deadline: Result<u32, Refusal>) -> Option<u32>
    ensures { result ≡ told_slack answer deadline }
{
    let ticks = answer.ok()??;
    let last = deadline.ok()?;
    Some(last.saturating_sub(ticks))
}

// The free flows that have an answer under the others: a floor, or a ceiling.
pub(crate) fn gathered<R: Rule, F: Fn(u8, FlowSet) -> Result<Option<u32>, Refusal>>(
    rule: &R,
    answer: F,
    free: FlowSet,
) -> Candidates
    requires { F.IsAlwaysCallable answer }
    ensures { (asked : ℕ → List Bool → Result (Option ℕ) Refusal) → Answers (F.post answer) asked → Gathered (time_told (R.Rule.meaning rule.now) asked (marks_of free)) (marks_of free) result }
{
    let mut set = FlowSet::none();
    let mut slack = [0; 20];
    for f in free {
        if let Some(time) = slack_told(answer(f, free.without(f)), rule.deadline(f)) {
            set = set.with(f);
            slack[f as usize - 1] = time;
        }
    }
    Candidates { set, slack }
}

impl Candidates {
    // The flow with the largest slack, of several such the smallest.
    pub(crate) fn chosen(&self) -> Option<u8>
        ensures { result ≡ chosen_by self.now.slack (marks_of self.now.set) }
    {
        let mut flows = self.set.iter();
        let mut best = flows.next()?;
        for f in flows {
            if self.slack[best as usize - 1] < self.slack[f as usize - 1] {
                best = f;
            }
        }
        Some(best)
    }
}
