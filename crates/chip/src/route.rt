// The route of a flow as a table of marks, one for each link of the mesh, and sharing by comparing two tables.
ghost use Rattle.std.specs.Prelude.{◌≡◌, ◌+◌, ◌&&◌};
ghost use Rattle.chip.specs.Routes.{no_marks, route_marks, links, among, shares, distance, count, Sharing};
ghost use Rattle.std.specs.List.{list_any, zip};

use crate::flow::Flow;
use crate::port::Port;

// Six links belong to each of the 36 routers.
pub const LINKS: usize = 216;

// The links that the packets of a flow take.
#[derive(Clone, Copy)]
pub struct Route {
    flow: Flow,
    marks: [bool; LINKS],
    ghost marked: { marks ≡ route_marks flow.parameters },
}

// The table without a mark.
fn no_marks() -> [bool; LINKS]
    ensures { result ≡ no_marks }
{
    [false; LINKS]
}

// Whether some place is marked in both tables.
fn marked_in_both(one: &[bool], other: &[bool]) -> bool
    ensures { result ≡ list_any (λ m. m.0 && m.1) (zip one.now other.now) }
{
    one.iter().zip(other).any(|(a, b)| *a && *b)
}

impl Route {
    // The route of `flow`: from its source along the row to the right column, then along that column to its
    // destination.
    pub fn of(flow: Flow) -> Route
        ensures { result.flow ≡ flow }
    {
        let there = flow.destination();
        let mut here = flow.source();
        let mut marks = no_marks();
        marks[here.link(Port::In)] = true;
        for _ in 0..here.distance(there) {
            marks[here.link(here.onward(there))] = true;
            here = here.toward(there);
        }
        marks[there.link(Port::Out)] = true;
        Route { flow, marks }
    }

    // The flow whose route this is.
    pub fn flow(&self) -> Flow
        ensures { result ≡ self.now.flow }
    {
        self.flow
    }

    // Whether the link with this number is in the route. No link has a number of 216 or more.
    pub fn holds(&self, link: usize) -> bool
        ensures { result ≡ among link (links self.now.flow.parameters) }
    {
        link < LINKS && self.marks[link]
    }

    // How many links the route has: two at its ends, and one for each step between.
    pub fn length(&self) -> usize
        ensures counted { result ≡ count (route_marks self.now.flow.parameters) }
        ensures steps { result ≡ 2 + distance self.now.flow.parameters.source self.now.flow.parameters.destination }
    {
        // A loop: `filter` and `count` take six times as long.
        let mut links = 0;
        for mark in self.marks.iter() {
            if *mark {
                links += 1;
            }
        }
        links
    }

    // Whether the two flows share: some link is in both routes.
    pub fn shares(&self, other: &Route) -> bool
        ensures value { result ≡ shares self.now.flow.parameters other.now.flow.parameters }
        ensures laws { Sharing }
    {
        marked_in_both(&self.marks, &other.marks)
    }
}
