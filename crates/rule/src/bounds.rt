// The bounds of a list of flows, told in one go.
ghost use Rattle.std.specs.Prelude.{◌≡◌, [], take};
ghost use Rattle.rule.specs.Questions.{table, one_more};

use crate::flow_set::MOST_FLOWS;

// How many leading flows of the list have a bound, and these bounds in ticks, padded with 0 to 20 entries.
// A count beside the array: these two fields are what the caller of any rule reads, Copy and of fixed size.
#[derive(Clone, Copy, PartialEq, Eq, Debug)]
pub struct Bounds {
    pub count: u8,
    pub ticks: [u32; 20],
}

impl Bounds {
    // No bound at all.
    pub fn none() -> Bounds
        ensures { result ≡ table [] }
    {
        Bounds {
            count: 0,
            ticks: [0; 20],
        }
    }

    // The bounds with one more after them; 20 bounds take no more.
    pub fn more(self, ticks: u32) -> Bounds
        ensures { result ≡ one_more self ticks }
    {
        let mut told = self;
        told.push(ticks);
        told
    }

    // Puts one more bound after them; 20 bounds take no more.
    pub fn push(&mut self, ticks: u32)
        ensures { self.new ≡ one_more self.old ticks }
    {
        if self.count < MOST_FLOWS {
            self.ticks[self.count as usize] = ticks;
            self.count += 1;
        }
    }

    // The bounds alone, without the padding.
    pub fn as_slice(&self) -> &[u32]
        ensures { result.now ≡ take self.now.count self.now.ticks }
    {
        &self.ticks[..self.count.min(MOST_FLOWS) as usize]
    }
}
