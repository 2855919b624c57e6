// An analysis in which no flow has interference jitter, so that the set of the flows above a flow says what it waits.
ghost use Rattle.std.specs.Prelude.{◌≡◌, ℕ, ◌≤◌, Bool, true, List, length, filter};
ghost use Rattle.chip.specs.declared.parameters.FlowParameters.{FlowParameters};
ghost use Rattle.rule.specs.FlowSets.{marks_of, members};
ghost use Rattle.rule.specs.Laws.{Lawful};
ghost use Rattle.rule.specs.Lists.{marks, proper};
ghost use Rattle.interference.specs.Interference.{flow};
ghost use Rattle.interference.specs.Promises.{Told};
ghost use Rattle.latency.specs.Analyses.{meaning_of, bound_by, equation_by};
ghost use Rattle.latency.specs.Chips.{chip, HasFlow, HasFlows};

use crate::analysis::Analysis;
use crate::traffic::Traffic;
use rule::{Bounds, FlowSet};
use std::marker::PhantomData;

// Which flows delay a flow, out of a set of flows above it.
pub trait Interferers {
    // Whether a flow counts against another, out of a list of flows in any order.
    ghost counts: { List FlowParameters → ℕ → List ℕ → ℕ → Bool };

    fn out_of(traffic: &Traffic, f: u8, set: FlowSet) -> FlowSet
        requires { HasFlow (chip traffic.now) f × HasFlows (chip traffic.now) (marks_of set) }
        ensures value { members (marks_of result) ≡ filter (counts (chip traffic.now) f (members (marks_of set))) (members (marks_of set)) }
        ensures flows { HasFlows (chip traffic.now) (marks_of result) };

    // The order of the flows above makes no difference.
    ghost any_order: { (fs : List FlowParameters) (f : ℕ) (above : List ℕ) → length fs ≤ 20 → proper (length fs) f above ≡ true → bound_by counts fs f (members (marks above)) ≡ bound_by counts fs f above };

    ghost lawful: { (fs : List FlowParameters) → 1 ≤ length fs → length fs ≤ 20 → Lawful (meaning_of (bound_by counts) (bound_by counts) (bound_by counts) fs) };
}

impl Traffic {
    // The bound of flow f under the flows of a set: those that count interfere without interference jitter.
    pub(crate) fn plain_bound<I: Interferers>(&self, f: u8, set: FlowSet) -> Option<u32>
        requires { HasFlow (chip self.now) f × HasFlows (chip self.now) (marks_of set) }
        ensures { result ≡ bound_by I.counts (chip self.now) f (members (marks_of set)) }
    {
        self.least(f, I::out_of(self, f, set), &[0; 20])
    }
}

// The analysis by the flows that I counts; the floor and the ceiling are the bound under the set in any order.
pub struct WithoutJitter<I> {
    of: PhantomData<I>,
}

impl<I: Interferers> Analysis for WithoutJitter<I> {
    ghost bound = { bound_by I.counts };

    ghost floor = { bound_by I.counts };

    ghost ceiling = { bound_by I.counts };

    ghost told = { λ fs f above. Told (equation_by I.counts fs f above) (flow fs f).deadline };

    ghost refused = { λ fs f above e. tt };

    ghost lawful = { I.lawful };

    fn bound(traffic: &Traffic, f: u8, above: &[u8]) -> Option<u32> {
        traffic.plain_bound::<I>(f, FlowSet::of(above))
    }

    fn floor(traffic: &Traffic, f: u8, others: FlowSet) -> Option<u32> {
        traffic.plain_bound::<I>(f, others)
    }

    fn ceiling(traffic: &Traffic, f: u8, others: FlowSet) -> Option<u32> {
        Self::floor(traffic, f, others)
    }

    fn bounds(traffic: &Traffic, list: &[u8]) -> Bounds {
        let mut told = Bounds::none();
        let mut above = FlowSet::none();
        for f in list {
            match traffic.plain_bound::<I>(*f, above) {
                Some(ticks) => told.push(ticks),
                None => return told,
            }
            above = above.with(*f);
        }
        told
    }
}
