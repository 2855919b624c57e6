// A precedence pair: a flow that has to stand above another, both named by label.

// The first flow stands above the later one. It is no instance of a type shared with precedence's pair of flow numbers:
// in a clause both would be pairs of ℕ, and a label could pass for a number.
#[derive(Clone, Copy, PartialEq, Eq, Debug)]
pub struct Pair {
    pub first: u16,
    pub later: u16,
}
