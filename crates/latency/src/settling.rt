// How rule J settles a list: each flow under those above it, with the jitter that their bounds give.
ghost use Rattle.std.specs.Prelude.{◌≡◌, ℕ, ◌-◌, ◌≤◌, true, List, [], length, slice_set};
ghost use Rattle.rule.specs.FlowSets.{marks_of, members, put};
ghost use Rattle.rule.specs.Lists.{is_flow, distinct, proper, marks};
ghost use Rattle.rule.specs.Meaning.{InTime, leading};
ghost use Rattle.rule.specs.Questions.{one_more, table};
ghost use Rattle.latency.specs.Chips.{chip, HasFlow, HasFlows};
ghost use Rattle.interference.specs.Interference.{disturbed};
ghost use Rattle.interference.specs.Rules.{solution_J, bound_J, meaning_J};
ghost use Rattle.latency.specs.Settlements.{overs_in, bounds_in};
ghost use Rattle.latency.specs.Settling.{Holds, Settling, jitter_by, Ready};
ghost use Rattle.interference.specs.Tables.{row};

use crate::jitters::jitters;
use crate::settled::{Settled, Settlement};
use crate::traffic::Traffic;
use rule::{Bounds, FlowSet};

impl Settled {
    // Nothing settled yet.
    pub(crate) fn none() -> Settled
        ensures told { result.told ≡ table [] }
        ensures above { marks_of result.above ≡ marks [] }
    {
        Settled {
            above: FlowSet::none(),
            table: [Settlement {
                over: FlowSet::none(),
                bound: 0,
            }; 20],
            told: Bounds::none(),
        }
    }

    // Flow f is settled next, with bound r.
    fn place(&mut self, f: u8, r: u32)
        requires { (is_flow 20 f ≡ true) × (r ≤ 1000000) }
        ensures above { marks_of self.new.above ≡ put (marks_of self.old.above) f true }
        ensures over { overs_in self.new.table ≡ slice_set (overs_in self.old.table) (f - 1) self.old.above }
        ensures bounds { bounds_in self.new.table ≡ slice_set (bounds_in self.old.table) (f - 1) r }
        ensures told { self.new.told ≡ one_more self.old.told r }
    {
        let over = self.above;
        self.table[f as usize - 1] = Settlement { over, bound: r };
        self.above = over.with(f);
        self.told.push(r);
    }
}

impl Traffic {
    // Whether some flow of `over` shares with flow j and not with flow f.
    pub(crate) fn disturbed(&self, f: u8, j: u8, over: FlowSet) -> bool
        requires { HasFlow (chip self.now) f × (HasFlow (chip self.now) j × HasFlows (chip self.now) (marks_of over)) }
        ensures { result ≡ disturbed (chip self.now) f (members (marks_of over)) j }
    {
        !over.and(self.near(j)).less(self.near(f)).is_empty()
    }

    // The interference jitter of flow j with respect to f, by what is settled.
    fn jitter(&self, settled: &Settled, f: u8, j: u8) -> u32
        requires { HasFlow (chip self.now) f × (HasFlow (chip self.now) j × HasFlows (chip self.now) (row (overs_in settled.now.table) j)) }
        ensures value { result ≡ jitter_by (chip self.now) settled.now f j }
        ensures few { result ≤ 1000000 }
    {
        let own = settled.table[j as usize - 1];
        if !self.disturbed(f, j, own.over) {
            return 0;
        }
        own.bound.saturating_sub(self.flow(j).parameters().latency)
    }

    // The solution of flow f under the flows settled so far.
    fn under(&self, settled: &Settled, f: u8) -> Option<u32>
        requires { HasFlow (chip self.now) f × (Ready (length (chip self.now)) settled.now) }
        ensures value { (above : List ℕ) → proper (length (chip self.now)) f above ≡ true → marks_of settled.now.above ≡ marks above → Holds (chip self.now) settled.now above → result ≡ solution_J (chip self.now) f above }
        ensures few { InTime result 1000000 }
    {
        let counted = self.direct(f, settled.above);
        self.least(
            f,
            counted,
            &jitters(counted, |j| self.jitter(settled, f, j)),
        )
    }

    // Settles the flows of a list from place k on, highest first, up to the first that has no solution.
    // By place, and not on the rest as a slice: what is settled is told of the whole list, which a rest has lost.
    fn settle(&self, list: &[u8], k: usize, settled: &mut Settled)
        requires { (distinct (length (chip self.now)) list.now ≡ true) × (Settling (chip self.now) list.now k settled.old) }
        ensures { Settling (chip self.now) list.now (length (leading (meaning_J (chip self.now)) [] list.now)) settled.new }
    {
        if k >= list.len() {
            return;
        }
        if let Some(r) = self.under(settled, list[k]) {
            settled.place(list[k], r);
            self.settle(list, k + 1, settled);
        }
    }

    // The bound of flow f under the flows of a list, highest first: nothing if one of them has none.
    pub(crate) fn delayed_bound(&self, f: u8, above: &[u8]) -> Option<u32>
        requires { proper (length (chip self.now)) f above.now ≡ true }
        ensures { result ≡ bound_J (chip self.now) f above.now }
    {
        let mut settled = Settled::none();
        self.settle(above, 0, &mut settled);
        if (settled.told.count as usize) < above.len() {
            return None;
        }
        self.under(&settled, f)
    }

    // The bounds of the flows of a list, highest first, each under those before it, up to the first that has none.
    pub(crate) fn delayed_bounds(&self, list: &[u8]) -> Bounds
        requires { distinct (length (chip self.now)) list.now ≡ true }
        ensures { result ≡ table (leading (meaning_J (chip self.now)) [] list.now) }
    {
        let mut settled = Settled::none();
        self.settle(list, 0, &mut settled);
        settled.told
    }
}
