// How a chip is made of the flows of a sheet: each route once, then who shares with whom, pair by pair.
ghost use Rattle.std.specs.Prelude.{◌≡◌, ℕ, ◌≤◌, true, length, map, take};
ghost use Rattle.rule.specs.Lists.{is_flow};
ghost use Rattle.sheet.specs.Sheets.{flows_of};
ghost use Rattle.latency.specs.Chips.{chip, Sharers};
ghost use Rattle.interference.specs.Tables.{row, routed, sharers};

use crate::traffic::Traffic;
use chip::{Flow, Route};
use rule::FlowSet;
use sheet::Sheet;

// The flows as a table; the places past the last flow hold the first again.
fn table_of(flows: &[Flow]) -> [Flow; 20]
    requires { (1 ≤ length flows.now) × (length flows.now ≤ 20) }
    ensures { take (length flows.now) result ≡ flows.now }
{
    let mut table = [flows[0]; 20];
    table[..flows.len()].copy_from_slice(flows);
    table
}

// The routes of the flows, each made once, as a table; the places past the last hold the route of the first.
fn routes_of(flows: &[Flow]) -> [Route; 20]
    requires { (1 ≤ length flows.now) × (length flows.now ≤ 20) }
    ensures { routed (take (length flows.now) result) ≡ map (λ f. f.parameters) flows.now }
{
    let mut routes = [Route::of(flows[0]); 20];
    for (place, flow) in flows.iter().enumerate() {
        routes[place] = Route::of(*flow);
    }
    routes
}

// The flows, out of those with these routes, that share with the flow of a route.
fn sharers_of(routes: &[Route], own: &Route) -> FlowSet
    requires { length routes.now ≤ 20 }
    ensures { Sharers routes.now own.now.flow result }
{
    let mut set = FlowSet::none();
    for (g, other) in routes.iter().enumerate() {
        if other.shares(own) {
            set = set.with(g as u8 + 1);
        }
    }
    set
}

// For each of the flows with these routes the set of those that share with it; no flow at the places past the last.
fn near_of(routes: &[Route]) -> [FlowSet; 20]
    requires { length routes.now ≤ 20 }
    ensures { (f : ℕ) → is_flow (length routes.now) f ≡ true → row result f ≡ sharers (routed routes.now) f (length routes.now) }
{
    let mut near = [FlowSet::none(); 20];
    for (place, own) in routes.iter().enumerate() {
        near[place] = sharers_of(routes, own);
    }
    near
}

impl Traffic {
    // The chip of 1 to 20 flows, in their order.
    fn new(flows: &[Flow]) -> Traffic
        requires { (1 ≤ length flows.now) × (length flows.now ≤ 20) }
        ensures { chip result ≡ map (λ f. f.parameters) flows.now }
    {
        let routes = routes_of(flows);
        Traffic {
            flows: table_of(flows),
            count: flows.len() as u8,
            near: near_of(&routes[..flows.len()]),
        }
    }

    // The flows of a sheet.
    pub(crate) fn of(sheet: &Sheet) -> Traffic
        ensures { chip result ≡ flows_of sheet.now }
    {
        Traffic::new(sheet.flows())
    }
}
