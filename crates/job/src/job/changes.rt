// How a job is made, changed and ended.
ghost use Rattle.std.specs.Prelude.{◌≡◌, [], None};
ghost use Rattle.chip.specs.Flows.{Answers};
ghost use Rattle.job.specs.Jobs.{contents, ticks_of, with_reserve, with_pair};
ghost use Rattle.sheet.specs.Pairs.{pair_fault};
ghost use Rattle.sheet.specs.Sheets.{flows_of};

use crate::job::Job;
use chip::{Refusal, Ticks};
use sheet::{Letter, Pair, Sheet};
use table::Table;

impl Job {
    // The job of planning a sheet under a rule, with no reserve and no pair.
    pub fn new(letter: Letter, sheet: Sheet) -> Job
        ensures { contents result ≡ record { letter = letter; flows = flows_of sheet; reserve = None; pairs = [] } }
    {
        Job {
            letter,
            sheet,
            reserve: None,
            pairs: Table::empty(Pair { first: 0, later: 0 }),
        }
    }

    // Puts this reserve, or none, in the place of the one that the job had.
    pub fn set_reserve(&mut self, reserve: Option<Ticks>)
        ensures { contents self.new ≡ with_reserve (ticks_of reserve) (contents self.old) }
    {
        self.reserve = reserve;
    }

    // Puts one more pair last. Refuses a pair that names no flow of the sheet or one flow twice, then a 17th
    // pair; a refusal changes nothing.
    pub fn add_pair(&mut self, pair: Pair) -> Result<(), Refusal>
        ensures reply { Answers result (pair_fault (contents self.old).flows (contents self.old).pairs pair) (λ _. Unit {0}) }
        ensures after { contents self.new ≡ with_pair pair (contents self.old) }
    {
        if !self.sheet.has_pair(pair) {
            return Err(Refusal::PairUnknown);
        }
        self.pairs.push(pair).map_err(|_| Refusal::TooManyPairs)
    }

    // Ends the job and gives its sheet back.
    pub fn into_sheet(self) -> Sheet
        ensures { flows_of result ≡ (contents self).flows }
    {
        self.sheet
    }
}
