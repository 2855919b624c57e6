// Up to 16 pairs of flows, in the order in which they came, and for each flow the set of those that it must precede.
ghost use Rattle.std.specs.Prelude.{◌≡◌, ◌≤◌, map, length};
ghost use Rattle.rule.specs.FlowSets.{marks_of};
ghost use Rattle.precedence.specs.Pairs.{later_sets};

mod holding;

use crate::pair::Pair;
use chip::MAX_PAIRS;
use rule::FlowSet;
use table::Table;

// No model: a bare list would not tell that there are at most 16; `pairs_of` gives the list.
#[derive(Clone, Copy)]
pub(crate) struct Pairs {
    list: Table<Pair, MAX_PAIRS>,
    // Derived from the list, and kept beside it: a question is then one mask, and a pair that comes is written here.
    later: [FlowSet; 20],
    ghost few: { length list.items ≤ 16 },
    ghost agree: { map marks_of later ≡ later_sets 20 1 list.items },
}
