// What a job can be asked.
ghost use Rattle.std.specs.Prelude.{◌≡◌, length};
ghost use Rattle.std.specs.List.{slice_get};
ghost use Rattle.job.specs.Jobs.{contents, ticks_of};
ghost use Rattle.sheet.specs.Sheets.{flows_of};

use crate::job::Job;
use chip::Ticks;
use sheet::{Letter, Pair, Sheet};

impl Job {
    // The letter of the rule.
    pub fn letter(&self) -> Letter
        ensures { result ≡ (contents self.now).letter }
    {
        self.letter
    }

    // The sheet that is planned.
    pub fn sheet(&self) -> &Sheet
        ensures { flows_of result.now ≡ (contents self.now).flows }
    {
        &self.sheet
    }

    // The reserve, if there is one.
    pub fn reserve(&self) -> Option<Ticks>
        ensures { ticks_of result ≡ (contents self.now).reserve }
    {
        self.reserve
    }

    // How many pairs there are.
    pub fn pair_count(&self) -> usize
        ensures { result ≡ length (contents self.now).pairs }
    {
        self.pairs.len()
    }

    // The pairs in their order.
    pub fn pairs(&self) -> &[Pair]
        ensures { result.now ≡ (contents self.now).pairs }
    {
        self.pairs.as_slice()
    }

    // The pair at a place, counted from 0; none past the last.
    pub fn pair(&self, place: usize) -> Option<Pair>
        ensures { result ≡ slice_get (contents self.now).pairs place }
    {
        self.pairs.get(place)
    }
}
