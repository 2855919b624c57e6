// A reserve in ticks, held to its limit before anything is made with it.
ghost use Rattle.std.specs.Prelude.{◌≡◌, ◌≤◌};
ghost use Rattle.chip.specs.Flows.{Answers};
ghost use Rattle.chip.specs.Reserves.{reserve_fault};

use crate::refusal::Refusal;

// The largest reserve.
pub const MAX_RESERVE: u32 = 1_000_000;

// From 0 to 1,000,000 ticks.
#[derive(Clone, Copy, PartialEq, Eq)]
pub struct Ticks {
    count: u32,
    ghost few: { count ≤ 1000000 },
}

impl Ticks {
    // So many ticks; refuses more than 1,000,000.
    pub fn new(count: u32) -> Result<Ticks, Refusal>
        ensures { Answers result (reserve_fault count) (λ t. t.count ≡ count) }
    {
        if count > MAX_RESERVE {
            return Err(Refusal::ReserveTooLarge);
        }
        Ok(Ticks { count })
    }

    // How many ticks there are.
    pub fn count(self) -> u32
        ensures { result ≡ self.count }
    {
        self.count
    }
}
