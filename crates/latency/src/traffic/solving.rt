// The least solution of a latency's equation, one text for all rules: a climb from below.
ghost use Rattle.std.specs.Prelude.{◌≡◌, ℕ, ◌+◌, ◌<◌, ◌≤◌};
ghost use Rattle.rule.specs.FlowSets.{marks_of, members};
ghost use Rattle.latency.specs.Chips.{chip, HasFlow, HasFlows};
ghost use Rattle.interference.specs.Interference.{flow, interfering, settled};
ghost use Rattle.interference.specs.Solution.{taken, demand, Least};
ghost use Rattle.interference.specs.Tables.{of_flow, total, tabled};

use crate::traffic::Traffic;
use chip::Flow;
use rule::FlowSet;

// What a flow takes within r ticks, with interference jitter beside its release jitter.
fn taken(flow: Flow, extra: u32, r: u32) -> u32
    requires { (extra ≤ 1000000) × (r ≤ 1000000) }
    ensures value { result ≡ taken (interfering flow.parameters extra) r }
    ensures few { result ≤ 4000000 }
{
    let p = flow.parameters();
    let reach = r + (p.jitter + extra);
    (reach + (p.period - 1)) / p.period * p.latency
}

impl Traffic {
    // One packet of each flow of a set.
    fn packets(&self, counted: FlowSet) -> u32
        requires { HasFlows (chip self.now) (marks_of counted) }
        ensures value { result ≡ total (λ j. (flow (chip self.now) j).latency) (members (marks_of counted)) }
        ensures few { result ≤ 20000000 }
    {
        counted
            .iter()
            .map(|j| self.flow(j).parameters().latency)
            .sum()
    }

    // The right side of the equation at r: a packet of `base` ticks, and what the flows of the set take within r
    // ticks, each with the interference jitter that the table has for it.
    fn demand(&self, base: u32, counted: FlowSet, extra: &[u32; 20], r: u32) -> u32
        requires { HasFlows (chip self.now) (marks_of counted) × ((base ≤ 1000000) × ((r ≤ 1000000) × (((j : ℕ) → of_flow extra.now j ≤ 1000000)))) }
        ensures value { result ≡ demand base (tabled (chip self.now) extra.now (marks_of counted)) r }
        ensures few { result ≤ 81000000 }
    {
        let taken = counted
            .iter()
            .map(|j| taken(self.flow(j), extra[j as usize - 1], r));
        base + taken.sum::<u32>()
    }

    // The least solution of the equation of flow f that is within its deadline, or nothing: the flows of the set
    // interfere, each with the interference jitter that the table has for it.
    pub(crate) fn least(&self, f: u8, counted: FlowSet, extra: &[u32; 20]) -> Option<u32>
        requires { HasFlow (chip self.now) f × (HasFlows (chip self.now) (marks_of counted) × (((j : ℕ) → of_flow extra.now j ≤ 1000000))) }
        ensures value { result ≡ settled (chip self.now) f (tabled (chip self.now) extra.now (marks_of counted)) }
        ensures least { Least (demand (flow (chip self.now) f).latency (tabled (chip self.now) extra.now (marks_of counted))) (flow (chip self.now) f).deadline result }
    {
        let p = self.flow(f).parameters();
        let mut r = p.latency + self.packets(counted);
        while r <= p.deadline {
            let next = self.demand(p.latency, counted, extra, r);
            if next == r {
                return Some(r);
            }
            r = next;
        }
        None
    }
}
