// A planning job: the rule by its letter, the sheet, and the wishes that lie on the rule.
ghost use Rattle.std.specs.Prelude.{◌≡◌, ◌≤◌, true, length};
ghost use Rattle.sheet.specs.Pairs.{pairs_hold};
ghost use Rattle.sheet.specs.Sheets.{flows_of};

use chip::{MAX_PAIRS, Ticks};
use sheet::{Letter, Pair, Sheet};
use table::Table;

mod changes;
pub mod equality;
mod questions;

// Each pair names two flows of the sheet. No model: the promise of reading ranges over every job, and over bare
// contents it would be false.
#[derive(PartialEq, Eq, Drop)]
pub struct Job {
    letter: Letter,
    sheet: Sheet,
    reserve: Option<Ticks>,
    pairs: Table<Pair, MAX_PAIRS>,
    ghost few: { length pairs.items ≤ 16 },
    ghost known: { pairs_hold (flows_of sheet) pairs.items ≡ true },
}
