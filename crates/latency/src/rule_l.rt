// Rule L: a flow is delayed by the direct flows above it, and by the indirect ones, which share with a direct one.
ghost use Rattle.std.specs.Prelude.{◌≡◌, filter};
ghost use Rattle.rule.specs.FlowSets.{marks_of, members};
ghost use Rattle.rule.specs.Questions.{asked_bound};
ghost use Rattle.interference.proofs.LawsOfL.{bound_L_members, lawful_L};
ghost use Rattle.interference.specs.Interference.{flow};
ghost use Rattle.interference.specs.Promises.{equation_L, Told};
ghost use Rattle.interference.specs.Rules.{counts_L, meaning_L};
ghost use Rattle.latency.specs.Chips.{chip, HasFlow, HasFlows};

use crate::chip_rule::ChipRule;
use crate::traffic::Traffic;
use crate::without_jitter::{Interferers, WithoutJitter};
use chip::Refusal;
use rule::{FlowSet, Rule};

// Rule L on a chip.
pub type RuleL = ChipRule<WithoutJitter<Linked>>;

// The flows that share with a flow, or with one that does.
pub struct Linked;

impl Interferers for Linked {
    ghost counts = { counts_L };

    ghost any_order = { bound_L_members };

    ghost lawful = { lawful_L };

    fn out_of(traffic: &Traffic, f: u8, set: FlowSet) -> FlowSet {
        traffic.linked(f, set)
    }
}

impl Traffic {
    // The flows of a set that share with flow f, or with a flow of the set that shares with f.
    pub(crate) fn linked(&self, f: u8, set: FlowSet) -> FlowSet
        requires { HasFlow (chip self.now) f × HasFlows (chip self.now) (marks_of set) }
        ensures value { members (marks_of result) ≡ filter (counts_L (chip self.now) f (members (marks_of set))) (members (marks_of set)) }
        ensures flows { HasFlows (chip self.now) (marks_of result) }
    {
        let direct = self.direct(f, set);
        let mut apart = set.less(direct);
        for k in direct {
            apart = apart.less(self.near(k));
        }
        set.less(apart)
    }
}

impl RuleL {
    // The bound of flow f under the flows of `above`, highest first: `Rule::bound`'s, in this rule's own words.
    pub fn bound(&self, f: u8, above: &[u8]) -> Result<Option<u32>, Refusal>
        ensures asked { result ≡ asked_bound (meaning_L (chip self.now.traffic)) f above.now }
        ensures told { Told (equation_L (chip self.now.traffic) f above.now) (flow (chip self.now.traffic) f).deadline result }
    {
        Rule::bound(self, f, above)
    }
}
