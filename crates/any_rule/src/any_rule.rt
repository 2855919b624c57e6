// Any of the three rules, for a job that says by a letter which one it is.
ghost use Rattle.std.specs.Prelude.{◌≡◌};
ghost use Rattle.sheet.specs.Sheets.{flows_of};
ghost use Rattle.any_rule.specs.AnyRules.{meaning_any, meaning_by};
ghost use Rattle.any_rule.specs.declared.any_rule.AnyRule.TheVariants.{D, J, L};
ghost use Rattle.latency.specs.Chips;
ghost use Rattle.latency.specs.ChipsLemmas.{chip_some, chip_few};
ghost use Rattle.interference.proofs.LawsOfD.{lawful_D};
ghost use Rattle.interference.proofs.LawsOfJ.{lawful_J};
ghost use Rattle.interference.proofs.LawsOfL.{lawful_L};

use chip::Refusal;
use latency::{RuleD, RuleJ, RuleL};
use rule::{Bounds, FlowSet, Rule};
use sheet::{Letter, Sheet};

// A rule D, J or L. The letter is known only when the program runs, so each answer asks which of the three it is.
#[derive(Drop)]
pub enum AnyRule {
    D(RuleD),
    J(RuleJ),
    L(RuleL),
}

impl AnyRule {
    // The rule that the letter names, on the flows of a sheet, which it uses up.
    pub fn new(letter: Letter, sheet: Sheet) -> AnyRule
        ensures { meaning_any result ≡ meaning_by letter (flows_of sheet) }
    {
        match letter {
            Letter::D => AnyRule::D(RuleD::new(sheet)),
            Letter::J => AnyRule::J(RuleJ::new(sheet)),
            Letter::L => AnyRule::L(RuleL::new(sheet)),
        }
    }
}

// Seven matches: a method that lends the rule as `&dyn Rule` would hand out a dyn value, which the kit's gate refuses.
impl Rule for AnyRule {
    ghost meaning = { meaning_any };

    ghost lawful = { elim [
      | D rule ↦ lawful_D (Chips.chip rule.traffic) (chip_some rule.traffic) (chip_few rule.traffic)
      | J rule ↦ lawful_J (Chips.chip rule.traffic) (chip_some rule.traffic) (chip_few rule.traffic)
      | L rule ↦ lawful_L (Chips.chip rule.traffic) (chip_some rule.traffic) (chip_few rule.traffic)
    ] };

    fn flows(&self) -> u8 {
        match self {
            AnyRule::D(rule) => rule.flows(),
            AnyRule::J(rule) => rule.flows(),
            AnyRule::L(rule) => rule.flows(),
        }
    }

    fn deadline(&self, f: u8) -> Result<u32, Refusal> {
        match self {
            AnyRule::D(rule) => rule.deadline(f),
            AnyRule::J(rule) => rule.deadline(f),
            AnyRule::L(rule) => rule.deadline(f),
        }
    }

    fn label(&self, f: u8) -> Result<u16, Refusal> {
        match self {
            AnyRule::D(rule) => rule.label(f),
            AnyRule::J(rule) => rule.label(f),
            AnyRule::L(rule) => rule.label(f),
        }
    }

    fn bound(&self, f: u8, above: &[u8]) -> Result<Option<u32>, Refusal> {
        match self {
            AnyRule::D(rule) => rule.bound(f, above),
            AnyRule::J(rule) => rule.bound(f, above),
            AnyRule::L(rule) => rule.bound(f, above),
        }
    }

    fn floor(&self, f: u8, others: FlowSet) -> Result<Option<u32>, Refusal> {
        match self {
            AnyRule::D(rule) => rule.floor(f, others),
            AnyRule::J(rule) => rule.floor(f, others),
            AnyRule::L(rule) => rule.floor(f, others),
        }
    }

    fn ceiling(&self, f: u8, others: FlowSet) -> Result<Option<u32>, Refusal> {
        match self {
            AnyRule::D(rule) => rule.ceiling(f, others),
            AnyRule::J(rule) => rule.ceiling(f, others),
            AnyRule::L(rule) => rule.ceiling(f, others),
        }
    }

    fn bounds(&self, list: &[u8]) -> Result<Bounds, Refusal> {
        match self {
            AnyRule::D(rule) => rule.bounds(list),
            AnyRule::J(rule) => rule.bounds(list),
            AnyRule::L(rule) => rule.bounds(list),
        }
    }
}
