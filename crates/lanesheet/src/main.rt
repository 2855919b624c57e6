// Lists a flow sheet in words: reads at most 1,024 bytes of standard input, and prints what the sheet says and the
// bounds that its own order would give, or "refused N at B".
#![tactic(auto)]

ghost use Rattle.std.specs.Prelude.{◌+◌, ◌<◌, ◌^◌, length};

use chip::{Flow, MAX_FLOWS, Route};
use job::Job;
use planner::JobRule;
use rule::Rule;
use sheet::Sheet;
use std::io;

fn print_flow(rt: &HostRuntime, number: usize, flow: Flow) -> io::Result<()> {
    let p = flow.parameters();
    print!(rt;
        "flow {number}: label {}, period {}, deadline {}, jitter {}, latency {}, ",
        p.label, p.period, p.deadline, p.jitter, p.latency
    )?;
    println!(rt;
        "from {} to {} over {} links",
        p.source,
        p.destination,
        Route::of(flow).length()
    )
}

// The flows after flow `number` that share a link with it, a line each.
fn print_sharers(rt: &HostRuntime, number: usize, route: &Route, after: &[Route]) -> io::Result<()>
    requires { number + length after.now < 2 ^ 64 }
{
    for (i, later) in after.iter().enumerate() {
        if route.shares(later) {
            println!(rt; "flows {number} and {} share a link", number + i + 1)?;
        }
    }
    Ok(())
}

// A line for each two flows, of those with these routes, that share a link.
fn print_pairs(rt: &HostRuntime, routes: &[Route]) -> io::Result<()> {
    for (i, route) in routes.iter().enumerate() {
        print_sharers(rt, i + 1, route, &routes[i + 1..])?;
    }
    Ok(())
}

// A line for each two flows that share a link. Each route is made once; past the last flow that of the first stands.
fn print_sharing(rt: &HostRuntime, sheet: &Sheet) -> io::Result<()> {
    let flows = sheet.flows();
    let Some(first) = flows.first() else {
        return Ok(());
    };
    let mut routes = [Route::of(*first); MAX_FLOWS];
    for (route, flow) in routes.iter_mut().zip(flows) {
        *route = Route::of(*flow);
    }
    print_pairs(rt, &routes[..flows.len().min(MAX_FLOWS)])
}

fn print_wishes(rt: &HostRuntime, job: &Job) -> io::Result<()> {
    match job.reserve() {
        None => println!(rt; "reserve none")?,
        Some(ticks) => println!(rt; "reserve {}", ticks.count())?,
    }
    if job.pairs().is_empty() {
        println!(rt; "pairs none")?;
    }
    for pair in job.pairs() {
        println!(rt; "pair: {} above {}", pair.first, pair.later)?;
    }
    Ok(())
}

fn print_job(rt: &HostRuntime, job: &Job, len: usize) -> io::Result<()> {
    println!(rt; "rule {}", job.letter())?;
    for (i, flow) in job.sheet().flows().iter().enumerate() {
        print_flow(rt, i + 1, *flow)?;
    }
    print_sharing(rt, job.sheet())?;
    print_wishes(rt, job)?;
    println!(rt; "{len} bytes accepted")
}

// Flow f stands on level f, under the flows before it: a line `level label bound`.
fn print_bound(rt: &HostRuntime, rule: &JobRule, f: u8, above: &[u8]) -> io::Result<()> {
    let Ok(label) = rule.label(f) else {
        return Ok(());
    };
    match rule.bound(f, above) {
        Ok(Some(bound)) => println!(rt; "{f} {label} {bound}"),
        _ => println!(rt; "{f} {label} none"),
    }
}

// The bounds if the flows sent in the sheet's own order.
fn print_bounds(rt: &HostRuntime, rule: &JobRule) -> io::Result<()> {
    let order = [
        1, 2, 3, 4, 5, 6, 7, 8, 9, 10, 11, 12, 13, 14, 15, 16, 17, 18, 19, 20,
    ];
    println!(rt; "bounds in the sheet's order:")?;
    for (i, f) in order.iter().enumerate().take(rule.flows().into()) {
        print_bound(rt, rule, *f, &order[..i])?;
    }
    Ok(())
}

// A refused sheet ends the program with status 1.
fn main(rt: HostRuntime) -> anyhow::Result<()> {
    input::with_job(&rt, |job, len| {
        print_job(&rt, &job, len)?;
        print_bounds(&rt, &planner::rule_of(job))
    })
}
