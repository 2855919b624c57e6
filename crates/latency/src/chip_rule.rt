// A rule on a chip: a proper question is answered by an analysis of the chip's traffic, any other is refused.
ghost use Rattle.std.specs.Prelude.{◌≡◌};
ghost use Rattle.rule.specs.Questions.{asked_bound};
ghost use Rattle.sheet.specs.Sheets.{flows_of};
ghost use Rattle.latency.specs.Analyses.{meaning_of};
ghost use Rattle.latency.specs.Chips.{chip};
ghost use Rattle.latency.specs.ChipsLemmas.{chip_some, chip_few};

use crate::analysis::Analysis;
use crate::traffic::Traffic;
use chip::Refusal;
use rule::{Bounds, FlowSet, Rule, is_distinct, is_proper, is_proper_set};
use sheet::Sheet;
use std::marker::PhantomData;

// The rule of analysis A on a chip.
#[derive(Drop)]
pub struct ChipRule<A> {
    traffic: Traffic,
    by: PhantomData<A>,
}

impl<A: Analysis> ChipRule<A> {
    // The rule on the flows of a sheet, which it uses up.
    pub fn new(sheet: Sheet) -> ChipRule<A>
        ensures flows { chip result.traffic ≡ flows_of sheet }
        ensures means { meaning_of A.bound A.floor A.ceiling (chip result.traffic) ≡ meaning_of A.bound A.floor A.ceiling (flows_of sheet) }
    {
        ChipRule {
            traffic: Traffic::of(&sheet),
            by: PhantomData,
        }
    }
}

impl<A: Analysis> Rule for ChipRule<A> {
    ghost meaning = { λ s. meaning_of A.bound A.floor A.ceiling (chip s.traffic) };

    ghost lawful = { λ r. A.lawful (chip r.traffic) (chip_some r.traffic) (chip_few r.traffic) };

    fn flows(&self) -> u8 {
        self.traffic.count()
    }

    fn deadline(&self, f: u8) -> Result<u32, Refusal> {
        Ok(self.traffic.asked(f)?.deadline)
    }

    fn label(&self, f: u8) -> Result<u16, Refusal> {
        Ok(self.traffic.asked(f)?.label)
    }

    fn bound(&self, f: u8, above: &[u8]) -> Result<Option<u32>, Refusal>
        ensures asked { result ≡ asked_bound (meaning_of A.bound A.floor A.ceiling (chip self.now.traffic)) f above.now }
        ensures told { A.told (chip self.now.traffic) f above.now result }
    {
        if !is_proper(self.traffic.count(), f, above) {
            return Err(Refusal::ImproperQuestion);
        }
        Ok(A::bound(&self.traffic, f, above))
    }

    fn floor(&self, f: u8, others: FlowSet) -> Result<Option<u32>, Refusal> {
        if !is_proper_set(self.traffic.count(), f, others) {
            return Err(Refusal::ImproperQuestion);
        }
        Ok(A::floor(&self.traffic, f, others))
    }

    fn ceiling(&self, f: u8, others: FlowSet) -> Result<Option<u32>, Refusal> {
        if !is_proper_set(self.traffic.count(), f, others) {
            return Err(Refusal::ImproperQuestion);
        }
        Ok(A::ceiling(&self.traffic, f, others))
    }

    fn bounds(&self, list: &[u8]) -> Result<Bounds, Refusal> {
        if !is_distinct(self.traffic.count(), list) {
            return Err(Refusal::ImproperQuestion);
        }
        Ok(A::bounds(&self.traffic, list))
    }
}
