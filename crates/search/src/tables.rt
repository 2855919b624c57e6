// Where a walk stands, in tables of fixed size: entry k - 1 of each is for level k.
ghost use Rattle.std.specs.Prelude.{◌≡◌, ◌≤◌, length, Some};
ghost use Rattle.search.specs.Texts.{outcome_text};

use crate::candidates::Candidates;
use std::fmt;

// Whether a search goes on, has ended with an order, or has ended without one.
#[derive(Clone, Copy, PartialEq, Eq, Debug)]
pub enum Outcome {
    Open,
    Order,
    NoOrder,
}

// In a word or two.
impl fmt::Display for Outcome {
    ghost output = { λ outcome. Some (outcome_text outcome) };

    fn fmt<W: fmt::Write>(&self, f: &mut fmt::Formatter<W>) -> fmt::Result {
        match self {
            Outcome::Open => f.write_str("open"),
            Outcome::Order => f.write_str("order"),
            Outcome::NoOrder => f.write_str("no order"),
        }
    }
}

// Whether a walk goes on, has ended with an order, whose bounds it has by level, or has ended without one.
#[derive(Clone, Copy)]
pub(crate) enum Stage {
    Open,
    Order([u32; 20]),
    NoOrder,
}

// `level` is the level to be filled; `sure`, a yes or no of its own, says that it and every lower one is settled by ceiling; `placed` has the
// flow on each level, and `candidates` the ones not tried yet there, with how long before its deadline the floor of each is.
// `placed` is an array of its own, since a rule is asked for the bounds of an order in one slice.
#[derive(Clone, Copy)]
pub struct Walk {
    pub(crate) flows: u8,
    pub(crate) level: u8,
    pub(crate) sure: bool,
    pub(crate) placed: [u8; 20],
    pub(crate) candidates: [Candidates; 20],
    pub(crate) count: u64,
    pub(crate) stage: Stage,
    ghost ranged: { (1 ≤ level) × (level ≤ flows) × (flows ≤ 20) },
    ghost sized: { (length placed ≡ 20) × (length candidates ≡ 20) },
}
