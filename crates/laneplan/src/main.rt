// Plans the traffic of a house: reads at most 1,024 bytes of standard input as a flow sheet, searches for an order with
// at most 1,000,000 placings, and prints the plan, or "no order", "open" or "refused N at B".
#![tactic(auto)]

use job::Job;
use planner::JobRule;
use runs::{Answer, Call, run};
use search::{LEVEL_BYTES, MAX_PLAN, Outcome, Search, TAIL_BYTES};
use std::io;

// The most placings that the search makes.
const PLACINGS: u32 = 1_000_000;

// A line `level label bound`, from the field of the level.
fn print_level(rt: &HostRuntime, field: [u8; LEVEL_BYTES]) -> io::Result<()> {
    let [_, _, _, level, l0, l1, b0, b1, b2, b3] = field;
    println!(rt;
        "{level} {} {}",
        u16::from_be_bytes([l0, l1]),
        u32::from_be_bytes([b0, b1, b2, b3])
    )
}

// A line for each level of a plan of so many bytes.
fn print_levels(rt: &HostRuntime, plan: &[u8; MAX_PLAN], len: usize) -> io::Result<()> {
    let levels = &plan[..len.saturating_sub(TAIL_BYTES).min(MAX_PLAN)];
    let (fields, _) = levels.as_chunks::<LEVEL_BYTES>();
    for field in fields {
        print_level(rt, *field)?;
    }
    Ok(())
}

// Searches, by the call whose contract carries the whole promise of the search, and prints the plan of an ended one, or
// that it is open, and the placings made.
fn print_plan(rt: &HostRuntime, job: Job) -> io::Result<()> {
    let calls = [
        Call::Advance(PLACINGS),
        Call::Outcome,
        Call::Plan,
        Call::Count,
    ];
    let mut replies = [Ok(Answer::Advanced); 4];
    let mut plan = [0; MAX_PLAN];
    let other: Option<&Search<JobRule>> = None;
    let _ = run(
        planner::rule_of(job),
        &calls,
        other,
        &mut plan,
        &mut replies,
    );
    match (replies[1], replies[2]) {
        (Ok(Answer::Outcome(Outcome::Order)), Ok(Answer::Plan(len))) => print_levels(
            rt, &plan, len,
        )?,
        (Ok(Answer::Outcome(Outcome::NoOrder)), _) => println!(rt; "no order")?,
        _ => println!(rt; "open")?,
    }
    match replies[3] {
        Ok(Answer::Count(count)) => println!(rt; "placings {count}"),
        _ => Ok(()),
    }
}

// A refused sheet ends the program with status 1.
fn main(rt: HostRuntime) -> anyhow::Result<()> {
    input::with_job(&rt, |job, _| print_plan(&rt, job))
}
