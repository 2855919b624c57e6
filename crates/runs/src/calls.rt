// The calls on a search, and the replies to them, as values.
use chip::Refusal;
use search::{Level, Outcome};

// A call on a search: an advance by so many placings, or a question.
#[derive(Clone, Copy)]
pub enum Call {
    Advance(u32),
    Outcome,
    Count,
    Level(u8),
    Plan,
    Same,
}

// What a call that is not refused answers.
#[derive(Clone, Copy)]
pub enum Answer {
    Advanced,
    Outcome(Outcome),
    Count(u64),
    Level(Level),
    Plan(usize),
    Same(bool),
}

// The reply to a call: what it answers, or why it is refused.
pub type Reply = Result<Answer, Refusal>;
