// How a search is opened on a rule, advanced, and given up for its rule.
ghost use Rattle.std.specs.Prelude.{◌≡◌};
ghost use Rattle.search.specs.Answers.{advance_reply};
ghost use Rattle.search.specs.Searches.{Walked};
ghost use Rattle.search.specs.Tables.{standing};
ghost use Rattle.walk.specs.Walk.{after, steps};

use crate::opening::start;
use crate::searching::Search;
use crate::tables::Stage;
use chip::Refusal;
use rule::Rule;

impl<R: Rule> Search<R> {
    // The search over a rule, before its first placing.
    pub fn open(rule: R) -> Search<R>
        ensures held { result.rule ≡ rule }
        ensures walked { Walked (R.Rule.meaning rule) result.walk }
        ensures stands { standing result.walk ≡ after (R.Rule.meaning rule) 0 }
    {
        let walk = start(&rule);
        Search { rule, walk }
    }

    // Allows the search so many placings more, and makes exactly that many unless it ends on the way. Refuses an
    // advance of none, and then any once the search has ended; a refusal changes nothing.
    pub fn advance(&mut self, placings: u32) -> Result<(), Refusal>
        ensures reply { result ≡ advance_reply (standing self.old.walk) placings }
        ensures held { self.new.rule ≡ self.old.rule }
        ensures walked { Walked (R.Rule.meaning self.old.rule) self.old.walk → Walked (R.Rule.meaning self.old.rule) self.new.walk }
        ensures stands { Walked (R.Rule.meaning self.old.rule) self.old.walk → standing self.new.walk ≡ steps (R.Rule.meaning self.old.rule) placings (standing self.old.walk) }
    {
        if placings == 0 {
            return Err(Refusal::AdvanceOfZero);
        }
        let Stage::Open = self.walk.stage else {
            return Err(Refusal::AdvanceAfterEnd);
        };
        self.walk.step_on(&self.rule, placings);
        Ok(())
    }

    // The rule, given back.
    pub fn into_rule(self) -> R
        ensures { result ≡ self.rule }
    {
        let Search { rule, walk: _ } = self;
        rule
    }
}
