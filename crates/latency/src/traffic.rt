// The flows of a chip, and who shares with whom, worked out once.
ghost use Rattle.std.specs.Prelude.{◌≡◌, ℕ, ◌≤◌, true, ◌&&◌, length};
ghost use Rattle.rule.specs.Lists.{is_flow, has};
ghost use Rattle.interference.specs.Interference.{share};
ghost use Rattle.interference.specs.Tables.{chip_of, row};

use chip::Flow;
use rule::FlowSet;

mod asking;
mod making;
mod solving;

// A chip of 1 to 20 flows; the set of a flow holds the flows that share with it.
// Two arrays: one array of both takes 4 to 8 in 100 more instructions, counted as in docs/SPEED.md (three sheets).
// No `Table` of flows: every place holds one, past the last the first again, as there is no flow to fill a `Table` with.
// No `impl Model`: its value, a list, would forget that each chip has 1 to 20 flows, which the laws of a rule need.
#[derive(Clone, Copy)]
pub struct Traffic {
    flows: [Flow; 20],
    count: u8,
    near: [FlowSet; 20],
    ghost sized: { (1 ≤ count) × (count ≤ 20) × (length flows ≡ 20) × (length near ≡ 20) },
    ghost shared: { ((f g : ℕ) → is_flow count f ≡ true → has (row near f) g ≡ (is_flow count g && share (chip_of count flows) g f)) },
}
