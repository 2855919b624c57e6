// The reserve layer: a rule whose bounds, floors and ceilings are those of the rule below with ticks added.
ghost use Rattle.std.specs.Prelude.{◌≡◌};
ghost use Rattle.rule.specs.Lists.{is_flow};
ghost use Rattle.rule.specs.Meaning.{answer};
ghost use Rattle.reserve.specs.Reserves.{reserved, with_reserve};
ghost use Rattle.reserve.specs.Reserved.{reserve_lawful};

use crate::adding::added;
use chip::{Refusal, Ticks};
use rule::{Bounds, FlowSet, Rule};

#[derive(Drop)]
pub struct Reserve<R> {
    rule: R,
    ticks: Ticks,
}

impl<R> Reserve<R> {
    // The reserve over a rule.
    pub fn new(rule: R, ticks: Ticks) -> Reserve<R>
        ensures { (result.rule ≡ rule) × (result.ticks ≡ ticks) }
    {
        Reserve { rule, ticks }
    }

    // The rule below.
    pub fn into_inner(self) -> R
        ensures { result ≡ self.rule }
    {
        let Reserve { rule, ticks: _ } = self;
        rule
    }
}

impl<R: Rule> Reserve<R> {
    // The answer below for flow f, with the reserve added.
    fn raise(&self, f: u8, below: Option<u32>) -> Result<Option<u32>, Refusal>
        ensures { result ≡ answer (is_flow (R.Rule.meaning self.now.rule).flows f) (reserved self.now.ticks.count ((R.Rule.meaning self.now.rule).deadline f) below) }
    {
        let deadline = self.rule.deadline(f)?;
        Ok(added(self.ticks, below, deadline))
    }
}

impl<R: Rule> Rule for Reserve<R> {
    ghost meaning = { λ s. with_reserve s.ticks.count (R.Rule.meaning s.rule) };

    ghost lawful = { λ r. reserve_lawful _ _ (R.Rule.lawful r.rule) };

    fn flows(&self) -> u8 {
        self.rule.flows()
    }

    fn deadline(&self, f: u8) -> Result<u32, Refusal> {
        self.rule.deadline(f)
    }

    fn label(&self, f: u8) -> Result<u16, Refusal> {
        self.rule.label(f)
    }

    fn bound(&self, f: u8, above: &[u8]) -> Result<Option<u32>, Refusal> {
        let below = self.rule.bound(f, above)?;
        self.raise(f, below)
    }

    fn floor(&self, f: u8, others: FlowSet) -> Result<Option<u32>, Refusal> {
        let below = self.rule.floor(f, others)?;
        self.raise(f, below)
    }

    fn ceiling(&self, f: u8, others: FlowSet) -> Result<Option<u32>, Refusal> {
        let below = self.rule.ceiling(f, others)?;
        self.raise(f, below)
    }

    fn bounds(&self, list: &[u8]) -> Result<Bounds, Refusal> {
        let below = self.rule.bounds(list)?;
        let mut told = Bounds::none();
        for (f, ticks) in list.iter().zip(below.as_slice()) {
            match self.raise(*f, Some(*ticks))? {
                Some(ticks) => told.push(ticks),
                None => return Ok(told),
            }
        }
        Ok(told)
    }
}
