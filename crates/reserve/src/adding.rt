// How a reserve is added to an answer.
ghost use Rattle.std.specs.Prelude.{◌≡◌};
ghost use Rattle.reserve.specs.Reserves.{reserved};

use chip::Ticks;

// An answer with the reserve added; nothing where the sum passes the deadline.
pub(crate) fn added(reserve: Ticks, below: Option<u32>, deadline: u32) -> Option<u32>
    ensures { result ≡ reserved reserve.count deadline below }
{
    below?
        .checked_add(reserve.count())
        .filter(|ticks| *ticks <= deadline)
}
