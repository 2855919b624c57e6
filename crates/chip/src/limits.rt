// The limits of what a planner hands in: how many flows and how many pairs.

// A sheet holds at most so many flows.
pub const MAX_FLOWS: usize = 20;

// A job, and a precedence, holds at most so many pairs.
pub const MAX_PAIRS: usize = 16;
