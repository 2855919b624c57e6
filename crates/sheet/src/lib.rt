// What a planner hands in: a draft of flows, the sheet that it is closed into, the letter of a rule, and pairs of flows.
#![tactic(auto)]

pub mod draft;
pub mod letter;
pub mod pair;
pub mod sheet;

pub use draft::Draft;
pub use letter::Letter;
pub use pair::Pair;
pub use sheet::Sheet;
