// A placing, and what follows it.
ghost use Rattle.search.specs.Searches.{Stepped, SteppedOn};

use crate::tables::{Stage, Walk};
use rule::Rule;

impl Walk {
    // Makes the placing that is due, on level 1 with a test of the order, and moves on to the next or to the end; an
    // ended walk stays as it is.
    fn step<R: Rule>(&mut self, rule: &R)
        ensures { Stepped (R.Rule.meaning rule.now) self.old self.new }
    {
        let Some(f) = self.next() else {
            return;
        };
        self.put(f);
        if self.level == 1 {
            self.test(rule);
        } else {
            self.level -= 1;
            self.enter(rule);
        }
        self.move_on();
    }

    // Makes so many placings, unless the walk ends on the way.
    pub(crate) fn step_on<R: Rule>(&mut self, rule: &R, placings: u32)
        ensures { SteppedOn (R.Rule.meaning rule.now) placings self.old self.new }
    {
        for _ in 0..placings {
            let Stage::Open = self.stage else {
                return;
            };
            self.step(rule);
        }
    }
}
