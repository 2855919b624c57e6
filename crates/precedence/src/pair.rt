// A pair of flows, by number: the first gets nothing under the later one.
// It is no instance of a type shared with the sheet's pair of labels: in a clause both would be pairs of ℕ, and a label
// could pass for a number.
#[derive(Clone, Copy, PartialEq, Eq, Debug)]
pub struct Pair {
    pub first: u8,
    pub later: u8,
}
