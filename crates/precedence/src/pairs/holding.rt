// Pairs come in one by one, and hold flows back.
ghost use Rattle.std.specs.Prelude.{◌≡◌, ◌≤◌, ◌&&◌, [], ◌∷◌, ◌++◌, map};
ghost use Rattle.rule.specs.FlowSets.{marks_of};
ghost use Rattle.rule.specs.Lists.{has, is_flow};
ghost use Rattle.precedence.specs.Held.{pairs_of, after_add};
ghost use Rattle.precedence.specs.Pairs.{add_reply, held_back, later_sets};

use crate::pair::Pair;
use crate::pairs::Pairs;
use chip::Refusal;
use rule::{FlowSet, is_flow};
use table::Table;

impl Pairs {
    // No pair at all.
    pub(crate) fn none() -> Pairs
        ensures { pairs_of result ≡ [] }
    {
        let none = FlowSet::none();
        Pairs {
            list: Table::empty(Pair { first: 0, later: 0 }),
            later: [none; 20],
        }
    }

    // For each flow the set of those that it must precede, with one more pair.
    fn joined(&self, pair: Pair) -> [FlowSet; 20]
        requires { (1 ≤ pair.first) × (pair.first ≤ 20) }
        ensures { map marks_of result ≡ later_sets 20 1 (pairs_of self.now ++ pair ∷ []) }
    {
        let mut later = self.later;
        let i = pair.first as usize - 1;
        later[i] = later[i].with(pair.later);
        later
    }

    // Takes one more pair of flows of 1 to `flows`.
    pub(crate) fn add(&mut self, flows: u8, pair: Pair) -> Result<(), Refusal>
        requires { flows ≤ 20 }
        ensures reply { result ≡ add_reply flows (pairs_of self.old) pair }
        ensures held { pairs_of self.new ≡ after_add flows (pairs_of self.old) pair }
    {
        if !is_flow(flows, pair.first) || !is_flow(flows, pair.later) || pair.first == pair.later {
            return Err(Refusal::PairUnknown);
        }
        let mut list = self.list;
        list.push(pair).map_err(|_| Refusal::TooManyPairs)?;
        let later = self.joined(pair);
        *self = Pairs { list, later };
        Ok(())
    }

    // Whether a flow that f must precede is among the others.
    pub(crate) fn hold_back(&self, f: u8, others: FlowSet) -> bool
        ensures { result ≡ (is_flow 20 f && held_back (pairs_of self.now) f (has (marks_of others))) }
    {
        is_flow(20, f) && self.later[f as usize - 1].intersects(others)
    }
}
