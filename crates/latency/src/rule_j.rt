// Rule J: a flow is delayed by the direct flows above it, each with the interference jitter that its own bound gives.
ghost use Rattle.std.specs.Prelude.{◌≡◌, ◌≤◌};
ghost use Rattle.rule.specs.FlowSets.{marks_of, members};
ghost use Rattle.rule.specs.Questions.{asked_bound};
ghost use Rattle.latency.specs.Chips.{chip, HasFlow, HasFlows};
ghost use Rattle.interference.specs.Promises.{ToldJ};
ghost use Rattle.interference.specs.Rules.{bound_D, bound_J, ceiling_extra, ceiling_J, meaning_J};
ghost use Rattle.interference.proofs.LawsOfJ.{lawful_J};

use crate::analysis::Analysis;
use crate::chip_rule::ChipRule;
use crate::jitters::jitters;
use crate::rule_d::Direct;
use crate::traffic::Traffic;
use chip::Refusal;
use rule::{Bounds, FlowSet, Rule};

// Rule J on a chip.
pub type RuleJ = ChipRule<WithJitter>;

impl Traffic {
    // The most interference jitter of flow j with respect to f, whatever the order of the set.
    fn most_jitter(&self, f: u8, set: FlowSet, j: u8) -> u32
        requires { HasFlow (chip self.now) f × (HasFlow (chip self.now) j × HasFlows (chip self.now) (marks_of set)) }
        ensures value { result ≡ ceiling_extra (chip self.now) f (members (marks_of set)) j }
        ensures few { result ≤ 1000000 }
    {
        if !self.disturbed(f, j, set) {
            return 0;
        }
        let p = self.flow(j).parameters();
        p.deadline - p.latency
    }

    // The ceiling of flow f under the flows of a set.
    fn ceiling(&self, f: u8, set: FlowSet) -> Option<u32>
        requires { HasFlow (chip self.now) f × HasFlows (chip self.now) (marks_of set) }
        ensures { result ≡ ceiling_J (chip self.now) f (members (marks_of set)) }
    {
        let counted = self.direct(f, set);
        self.least(
            f,
            counted,
            &jitters(counted, |j| self.most_jitter(f, set, j)),
        )
    }
}

// The analysis with interference jitter; its floor is the bound of rule D, and its ceiling gives each the most jitter.
pub struct WithJitter;

impl Analysis for WithJitter {
    ghost bound = { bound_J };

    ghost floor = { bound_D };

    ghost ceiling = { ceiling_J };

    ghost told = { ToldJ };

    ghost refused = { λ fs f above e. tt };

    ghost lawful = { lawful_J };

    fn bound(traffic: &Traffic, f: u8, above: &[u8]) -> Option<u32> {
        traffic.delayed_bound(f, above)
    }

    fn floor(traffic: &Traffic, f: u8, others: FlowSet) -> Option<u32> {
        traffic.plain_bound::<Direct>(f, others)
    }

    fn ceiling(traffic: &Traffic, f: u8, others: FlowSet) -> Option<u32> {
        traffic.ceiling(f, others)
    }

    fn bounds(traffic: &Traffic, list: &[u8]) -> Bounds {
        traffic.delayed_bounds(list)
    }
}

impl RuleJ {
    // The bound of flow f under the flows of `above`, highest first: `Rule::bound`'s, in this rule's own words.
    pub fn bound(&self, f: u8, above: &[u8]) -> Result<Option<u32>, Refusal>
        ensures asked { result ≡ asked_bound (meaning_J (chip self.now.traffic)) f above.now }
        ensures told { ToldJ (chip self.now.traffic) f above.now result }
    {
        Rule::bound(self, f, above)
    }
}
