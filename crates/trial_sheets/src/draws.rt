// Drawn numbers, the same in every run.
ghost use Rattle.std.specs.Prelude.{◌<◌};

#[derive(Drop)]
pub(crate) struct Draws {
    state: u32,
}

impl Draws {
    pub(crate) fn new(state: u32) -> Draws {
        Draws { state }
    }

    // A number below k.
    pub(crate) fn draw(&mut self, k: u32) -> u32
        requires { 0 < k }
        ensures { result < k }
    {
        self.state = self.state.wrapping_mul(1664525).wrapping_add(1013904223);
        (self.state / 65536) % k
    }
}
