// What the rule knows of a flow, times in ticks.
ghost use Rattle.std.specs.Prelude.{◌≡◌};
ghost use Rattle.uncontended.specs.Uncontended.{in_time};

#[derive(Clone, Copy, PartialEq, Eq, Debug)]
pub struct Flow {
    pub label: u16,
    pub deadline: u32,
    pub latency: u32,
}

impl Flow {
    // The basic latency, if it is no later than the deadline.
    pub(crate) fn in_time(self) -> Option<u32>
        ensures { result ≡ in_time self }
    {
        (self.latency <= self.deadline).then_some(self.latency)
    }
}
