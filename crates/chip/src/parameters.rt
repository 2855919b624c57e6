// A flow as it is written down: plain numbers, not yet held to any rule.
ghost use Rattle.std.specs.Prelude.{◌≡◌, Some};
ghost use Rattle.chip.specs.Flows.{on_mesh};
ghost use Rattle.chip.specs.Texts.{router_text};

use std::fmt;

// The mesh has as many columns, and as many rows.
pub const MESH_SIDE: u8 = 6;

// A router of the mesh, by column and row, each 0 to 5.
#[derive(Clone, Copy, PartialEq, Eq, Debug)]
pub struct Router {
    pub column: u8,
    pub row: u8,
}

// What is said of a flow: its label, its times in ticks, and the two routers that its packets go between.
#[derive(Clone, Copy, PartialEq, Eq, Debug)]
pub struct FlowParameters {
    pub label: u16,
    pub period: u32,
    pub deadline: u32,
    pub jitter: u32,
    pub latency: u32,
    pub source: Router,
    pub destination: Router,
}

impl Router {
    // Whether the router is one of the mesh.
    pub(crate) fn is_on_mesh(self) -> bool
        ensures { result ≡ on_mesh self }
    {
        self.column < MESH_SIDE && self.row < MESH_SIDE
    }
}

// As (column,row).
impl fmt::Display for Router {
    ghost output = { λ r. Some (router_text r) };

    fn fmt<W: fmt::Write>(&self, f: &mut fmt::Formatter<W>) -> fmt::Result {
        let Router { column, row } = self;
        write!(f, "({column},{row})")
    }
}
