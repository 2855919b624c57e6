// What is asked of a chip: its flows by number, and the flows of a set that share with one.
ghost use Rattle.std.specs.Prelude.{◌≡◌, ℕ, ◌<◌, ◌≤◌, ◌&&◌, length, filter};
ghost use Rattle.rule.specs.FlowSets.{marks_of, members};
ghost use Rattle.rule.specs.Lists.{is_flow, has};
ghost use Rattle.rule.specs.Meaning.{answer};
ghost use Rattle.latency.specs.Chips.{chip, HasFlow, HasFlows};
ghost use Rattle.interference.specs.Interference.{flow, share, direct};

use crate::traffic::Traffic;
use chip::{Flow, FlowParameters, Refusal};
use rule::{FlowSet, is_flow};

// A flow goes by its bare number: one with its chip in a struct would have to be shown to be of this chip, too.
impl Traffic {
    // The number of flows.
    pub(crate) fn count(&self) -> u8
        ensures value { result ≡ length (chip self.now) }
        ensures range { (1 ≤ result) × (result ≤ 20) }
    {
        self.count
    }

    // Flow number f.
    pub(crate) fn flow(&self, f: u8) -> Flow
        requires { HasFlow (chip self.now) f }
        ensures { result.parameters ≡ flow (chip self.now) f }
    {
        self.flows[f as usize - 1]
    }

    // What is said of flow f; refuses a number that is no flow.
    pub(crate) fn asked(&self, f: u8) -> Result<FlowParameters, Refusal>
        ensures { result ≡ answer (is_flow (length (chip self.now)) f) (flow (chip self.now) f) }
    {
        if !is_flow(self.count(), f) {
            return Err(Refusal::ImproperQuestion);
        }
        Ok(self.flow(f).parameters())
    }

    // The flows that share with flow f.
    pub(crate) fn near(&self, f: u8) -> FlowSet
        requires { HasFlow (chip self.now) f }
        ensures { (g : ℕ) → has (marks_of result) g ≡ (is_flow (length (chip self.now)) g && share (chip self.now) g f) }
    {
        self.near[f as usize - 1]
    }

    // The flows of a set that share with flow f.
    pub(crate) fn direct(&self, f: u8, set: FlowSet) -> FlowSet
        requires { HasFlow (chip self.now) f × HasFlows (chip self.now) (marks_of set) }
        ensures value { members (marks_of result) ≡ filter (direct (chip self.now) f) (members (marks_of set)) }
        ensures flows { HasFlows (chip self.now) (marks_of result) }
    {
        set.and(self.near(f))
    }
}
