// The moves of a walk that ask no rule: backing up, the candidate that is next, and putting it on its level.
ghost use Rattle.std.specs.Prelude.{◌≡◌};
ghost use Rattle.rule.specs.FlowSets.{marks_of};
ghost use Rattle.search.specs.Tables.{spent, next_of, order_of, free_of, MovedOn, Put};

use crate::tables::{Stage, Walk};
use rule::FlowSet;

impl Walk {
    // Whether the walk goes on, with no candidate left on the level to be filled.
    fn is_spent(&self) -> bool
        ensures { result ≡ spent self.now }
    {
        match self.stage {
            Stage::Open => self.candidates[self.level as usize - 1].set.is_empty(),
            _ => false,
        }
    }

    // Backs up over levels with no candidate left, and ends the walk without an order if the lowest has none.
    pub(crate) fn move_on(&mut self)
        ensures { MovedOn self.old self.new }
    {
        while self.is_spent() {
            if self.level == self.flows {
                self.stage = Stage::NoOrder;
                return;
            }
            self.level += 1;
            self.sure = false;
        }
    }

    // The candidate to be placed next; nothing once the walk has ended.
    pub(crate) fn next(&self) -> Option<u8>
        ensures { result ≡ next_of self.now }
    {
        match self.stage {
            Stage::Open => self.candidates[self.level as usize - 1].chosen(),
            _ => None,
        }
    }

    // Puts a candidate on the level to be filled.
    pub(crate) fn put(&mut self, f: u8)
        ensures { Put f self.old self.new }
    {
        let k = self.level as usize - 1;
        let untried = self.candidates[k].set;
        self.candidates[k].set = untried.without(f);
        self.placed[k] = f;
        self.count = self.count.saturating_add(1);
    }

    // The flows that stand on no level below the one to be filled.
    pub(crate) fn free_flows(&self) -> FlowSet
        ensures { marks_of result ≡ free_of self.now }
    {
        let placed = &self.placed[self.level as usize..self.flows as usize];
        FlowSet::first(self.flows).less(FlowSet::of(placed))
    }

    // The flows on all levels, level 1 first.
    pub(crate) fn order(&self) -> &[u8]
        ensures { result.now ≡ order_of self.now }
    {
        &self.placed[..self.flows as usize]
    }
}
