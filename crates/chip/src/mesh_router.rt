// A router that lies on the mesh: its links, one for each port, and the way on to another router.
ghost use Rattle.std.specs.Prelude.{◌≡◌, ◌<◌, true};
ghost use Rattle.chip.specs.Flows.{on_mesh};
ghost use Rattle.chip.specs.Routes.{link, distance, onward, beyond};

use crate::parameters::{MESH_SIDE, Router};
use crate::port::Port;
use std::cmp::Ordering;

#[derive(Clone, Copy)]
pub(crate) struct MeshRouter {
    pub(crate) router: Router,
    ghost inside: { on_mesh router ≡ true },
}

impl MeshRouter {
    // The number, below 216, of the link that belongs to this router at `port`.
    pub(crate) fn link(self, port: Port) -> usize
        ensures value { result ≡ link port self.router }
        ensures within { result < 216 }
    {
        let Router { column, row } = self.router;
        let routers = MESH_SIDE as usize * MESH_SIDE as usize;
        port as usize * routers + row as usize * MESH_SIDE as usize + column as usize
    }

    // The number of steps from this router to `there`.
    pub(crate) fn distance(self, there: MeshRouter) -> u8
        ensures { result ≡ distance self.router there.router }
    {
        self.router.column.abs_diff(there.router.column)
            + self.router.row.abs_diff(there.router.row)
    }

    // The port by which a packet here leaves for `there`: along the row first, then along the column.
    pub(crate) fn onward(self, there: MeshRouter) -> Port
        ensures { result ≡ onward self.router there.router }
    {
        match self.router.column.cmp(&there.router.column) {
            Ordering::Less => Port::East,
            Ordering::Greater => Port::West,
            Ordering::Equal => match self.router.row.cmp(&there.router.row) {
                Ordering::Less => Port::North,
                Ordering::Greater => Port::South,
                Ordering::Equal => Port::Out,
            },
        }
    }

    // The router that a packet comes to which leaves by `port`, on the mesh or past its edge.
    fn beyond(self, port: Port) -> Router
        ensures { result ≡ beyond port self.router }
    {
        let Router { column, row } = self.router;
        match port {
            Port::In | Port::Out => self.router,
            Port::East => Router {
                column: column + 1,
                row,
            },
            Port::West => Router {
                column: column.saturating_sub(1),
                row,
            },
            Port::North => Router {
                column,
                row: row + 1,
            },
            Port::South => Router {
                column,
                row: row.saturating_sub(1),
            },
        }
    }

    // The router that a packet for `there` comes to next.
    pub(crate) fn toward(self, there: MeshRouter) -> MeshRouter
        ensures { result.router ≡ beyond (onward self.router there.router) self.router }
    {
        MeshRouter {
            router: self.beyond(self.onward(there)),
        }
    }
}
