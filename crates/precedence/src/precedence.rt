// The precedence layer: a rule that gives nothing to the first flow of a pair under the later one.
ghost use Rattle.std.specs.Prelude.{◌≡◌, ◌&&◌, []};
ghost use Rattle.rule.specs.FlowSets.{marks_of};
ghost use Rattle.rule.specs.Lists.{has, proper_set};
ghost use Rattle.precedence.specs.Held.{pairs_of, after_add};
ghost use Rattle.precedence.specs.Pairs.{add_reply, held_back, with_pairs};
ghost use Rattle.precedence.specs.Preceded.{pairs_lawful};

use crate::pair::Pair;
use crate::pairs::Pairs;
use chip::Refusal;
use rule::{Bounds, FlowSet, Rule, is_proper, is_proper_set};

#[derive(Drop)]
pub struct Precedence<R> {
    rule: R,
    pairs: Pairs,
}

impl<R> Precedence<R> {
    // The precedence over a rule, without a pair.
    pub fn new(rule: R) -> Precedence<R>
        ensures { (result.rule ≡ rule) × (pairs_of result.pairs ≡ []) }
    {
        Precedence {
            rule,
            pairs: Pairs::none(),
        }
    }

    // The rule below.
    pub fn into_inner(self) -> R
        ensures { result ≡ self.rule }
    {
        let Precedence { rule, pairs: _ } = self;
        rule
    }
}

impl<R: Rule> Precedence<R> {
    // Takes one more pair of flows of the rule below. Refuses a number that is no flow, or one flow twice, and then
    // a 17th pair; a refused pair changes nothing.
    pub fn add(&mut self, first: u8, later: u8) -> Result<(), Refusal>
        ensures reply { result ≡ add_reply (R.Rule.meaning self.old.rule).flows (pairs_of self.old.pairs) (record { first = first; later = later }) }
        ensures held { pairs_of self.new.pairs ≡ after_add (R.Rule.meaning self.old.rule).flows (pairs_of self.old.pairs) (record { first = first; later = later }) }
        ensures below { self.new.rule ≡ self.old.rule }
    {
        let flows = self.rule.flows();
        self.pairs.add(flows, Pair { first, later })
    }

    // Whether flow f gets nothing under a set: the question is proper, and a flow that f must precede is in the set.
    fn keeps_back(&self, f: u8, others: FlowSet) -> bool
        ensures { result ≡ (proper_set (R.Rule.meaning self.now.rule).flows f (marks_of others) && held_back (pairs_of self.now.pairs) f (has (marks_of others))) }
    {
        self.pairs.hold_back(f, others) && is_proper_set(self.rule.flows(), f, others)
    }
}

impl<R: Rule> Rule for Precedence<R> {
    ghost meaning = { λ s. with_pairs (pairs_of s.pairs) (R.Rule.meaning s.rule) };

    ghost lawful = { λ r. pairs_lawful _ _ (R.Rule.lawful r.rule) };

    fn flows(&self) -> u8 {
        self.rule.flows()
    }

    fn deadline(&self, f: u8) -> Result<u32, Refusal> {
        self.rule.deadline(f)
    }

    fn label(&self, f: u8) -> Result<u16, Refusal> {
        self.rule.label(f)
    }

    fn bound(&self, f: u8, above: &[u8]) -> Result<Option<u32>, Refusal> {
        // Not `keeps_back`: a set does not show that a flow stands twice in the list.
        if self.pairs.hold_back(f, FlowSet::of(above)) && is_proper(self.rule.flows(), f, above) {
            return Ok(None);
        }
        self.rule.bound(f, above)
    }

    fn floor(&self, f: u8, others: FlowSet) -> Result<Option<u32>, Refusal> {
        if self.keeps_back(f, others) {
            return Ok(None);
        }
        self.rule.floor(f, others)
    }

    fn ceiling(&self, f: u8, others: FlowSet) -> Result<Option<u32>, Refusal> {
        if self.keeps_back(f, others) {
            return Ok(None);
        }
        self.rule.ceiling(f, others)
    }

    fn bounds(&self, list: &[u8]) -> Result<Bounds, Refusal> {
        let below = self.rule.bounds(list)?;
        let mut told = Bounds::none();
        let mut above = FlowSet::none();
        for (f, ticks) in list.iter().zip(below.as_slice()) {
            if self.pairs.hold_back(*f, above) {
                return Ok(told);
            }
            told.push(*ticks);
            above = above.with(*f);
        }
        Ok(told)
    }
}
