// The ports of a router, by which its links leave it.

// How a link leaves a router: in from its core, out to its core, or to a neighbour. East is one column up,
// north one row up.
#[derive(Clone, Copy, PartialEq, Eq, Debug)]
pub enum Port {
    In,
    Out,
    East,
    West,
    North,
    South,
}
