// Rule D: a flow is delayed by the direct flows above it, those that share with it.
ghost use Rattle.std.specs.Prelude.{◌≡◌};
ghost use Rattle.rule.specs.Questions.{asked_bound};
ghost use Rattle.interference.proofs.LawsOfD.{bound_D_members, lawful_D};
ghost use Rattle.interference.specs.Interference.{flow};
ghost use Rattle.interference.specs.Promises.{equation_D, Told};
ghost use Rattle.interference.specs.Rules.{meaning_D};
ghost use Rattle.latency.specs.Analyses.{counts_D};
ghost use Rattle.latency.specs.Chips.{chip};

use crate::chip_rule::ChipRule;
use crate::traffic::Traffic;
use crate::without_jitter::{Interferers, WithoutJitter};
use chip::Refusal;
use rule::{FlowSet, Rule};

// Rule D on a chip.
pub type RuleD = ChipRule<WithoutJitter<Direct>>;

// The flows that share with a flow.
pub struct Direct;

impl Interferers for Direct {
    ghost counts = { counts_D };

    ghost any_order = { bound_D_members };

    ghost lawful = { lawful_D };

    fn out_of(traffic: &Traffic, f: u8, set: FlowSet) -> FlowSet {
        traffic.direct(f, set)
    }
}

impl RuleD {
    // The bound of flow f under the flows of `above`, highest first: `Rule::bound`'s, in this rule's own words.
    pub fn bound(&self, f: u8, above: &[u8]) -> Result<Option<u32>, Refusal>
        ensures asked { result ≡ asked_bound (meaning_D (chip self.now.traffic)) f above.now }
        ensures told { Told (equation_D (chip self.now.traffic) f above.now) (flow (chip self.now.traffic) f).deadline result }
    {
        Rule::bound(self, f, above)
    }
}
