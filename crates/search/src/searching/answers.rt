// What a search answers; no question changes it.
ghost use Rattle.std.specs.Prelude.{◌≡◌, length};
ghost use Rattle.search.specs.Answers.{outcome_of, level_reply};
ghost use Rattle.search.specs.Plans.{plan_reply, plan_after, same_reply};
ghost use Rattle.search.specs.Searches.{Walked};
ghost use Rattle.search.specs.Tables.{standing};
ghost use Rattle.walk.specs.Walk.{count_of};

use crate::plan::{same_labels, write_no_order, write_order};
use crate::searching::{Level, Search};
use crate::tables::{Outcome, Stage};
use chip::Refusal;
use rule::Rule;

impl<R: Rule> Search<R> {
    // Whether the search goes on, or how it ended.
    pub fn outcome(&self) -> Outcome
        ensures { result ≡ outcome_of (standing self.now.walk) }
    {
        match self.walk.stage {
            Stage::Open => Outcome::Open,
            Stage::Order(_) => Outcome::Order,
            Stage::NoOrder => Outcome::NoOrder,
        }
    }

    // How many placings were made, those of flows unplaced again too.
    pub fn count(&self) -> u64
        ensures { result ≡ count_of (standing self.now.walk) }
    {
        self.walk.count
    }

    // The flow on level k and its bound. Refuses without an order, and then a level outside 1 to the number of flows.
    pub fn level(&self, k: u8) -> Result<Level, Refusal>
        ensures { Walked (R.Rule.meaning self.now.rule) self.now.walk → result ≡ level_reply (R.Rule.meaning self.now.rule) (standing self.now.walk) k }
    {
        let Stage::Order(bounds) = &self.walk.stage else {
            return Err(Refusal::NoOutcome);
        };
        if k < 1 || k > self.walk.flows {
            return Err(Refusal::LevelOutside);
        }
        let i = k as usize - 1;
        Ok(Level {
            flow: self.walk.placed[i],
            bound: bounds[i],
        })
    }

    // Writes the plan at the front of a buffer, and tells its length. Refuses before the end, and then a buffer shorter
    // than the plan; bytes past the plan, and a refused buffer, stay.
    pub fn write_plan(&self, buffer: &mut [u8]) -> Result<usize, Refusal>
        ensures reply { Walked (R.Rule.meaning self.now.rule) self.now.walk → result ≡ plan_reply (R.Rule.meaning self.now.rule) (standing self.now.walk) (length buffer.old) }
        ensures after { Walked (R.Rule.meaning self.now.rule) self.now.walk → buffer.new ≡ plan_after (R.Rule.meaning self.now.rule) (standing self.now.walk) buffer.old }
    {
        let count = self.walk.count;
        match &self.walk.stage {
            Stage::Open => Err(Refusal::NoOutcome),
            Stage::Order(bounds) => write_order(
                &self.rule,
                self.walk.order(),
                bounds,
                count,
                buffer,
            ),
            Stage::NoOrder => write_no_order(count, buffer),
        }
    }

    // Whether this search and another have equal plans: no order both, or the same labels on the same levels. Refuses
    // unless both have ended.
    pub fn same_plan<Q: Rule>(&self, other: &Search<Q>) -> Result<bool, Refusal>
        ensures { result ≡ same_reply (R.Rule.meaning self.now.rule) (standing self.now.walk) (Q.Rule.meaning other.now.rule) (standing other.now.walk) }
    {
        match (self.outcome(), other.outcome()) {
            (Outcome::Order, Outcome::Order) => {
                Ok(same_labels(
                    &self.rule,
                    self.walk.order(),
                    &other.rule,
                    other.walk.order(),
                ))
            }
            (Outcome::NoOrder, Outcome::NoOrder) => Ok(true),
            (Outcome::Order, Outcome::NoOrder) => Ok(false),
            (Outcome::NoOrder, Outcome::Order) => Ok(false),
            _ => Err(Refusal::NoOutcome),
        }
    }
}
