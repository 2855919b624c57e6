// A table of trials, line by line.
use crate::flows::LABELS;
use crate::jobs::{bare_job, layered_job};
use any_rule::AnyRule;
use job::Job;
use rule::Rule;
use sheet::Letter;
use std::io;

// Which sheets a table goes over, and what a line tells of a rule.
pub trait Table {
    // Sheets up to this number are fixed.
    const FIXED: u32;

    // The last sheet.
    const SHEETS: u32;

    // All groups of a line.
    fn print_groups<R: Rule + Drop>(rt: &HostRuntime, rule: R) -> io::Result<()>;
}

fn print_pairs(rt: &HostRuntime, job: &Job) -> io::Result<()> {
    if job.pairs().is_empty() {
        print!(rt; "-")?;
    }
    for (i, pair) in job.pairs().iter().enumerate() {
        if i > 0 {
            print!(rt; ",")?;
        }
        print!(rt;
            "{}>{}",
            pair.first.saturating_sub(LABELS),
            pair.later.saturating_sub(LABELS)
        )?;
    }
    Ok(())
}

fn print_head(rt: &HostRuntime, number: u32, job: &Job) -> io::Result<()> {
    print!(rt; "{number} {} ", job.letter())?;
    match job.reserve() {
        None => print!(rt; "- ")?,
        Some(ticks) => print!(rt; "{} ", ticks.count())?,
    }
    print_pairs(rt, job)
}

// A line for a job and the rule that is made of it.
fn print_line<T: Table, R: Rule + Drop, F: FnOnce(Job) -> R>(
    rt: &HostRuntime,
    number: u32,
    job: Job,
    rule_of: F,
) -> io::Result<()>
    requires { F.IsAlwaysCallable rule_of }
{
    print_head(rt, number, &job)?;
    T::print_groups(rt, rule_of(job))?;
    println!(rt; "")
}

// A line for the bare rule of a letter, and one for the rule under both layers.
fn print_lines<T: Table>(rt: &HostRuntime, number: u32, letter: Letter) -> io::Result<()> {
    if let Some(job) = bare_job::<T>(number, letter) {
        print_line::<T, _, _>(
            rt,
            number,
            job,
            |job| AnyRule::new(letter, job.into_sheet()),
        )?;
    }
    if let Some(job) = layered_job::<T>(number, letter) {
        print_line::<T, _, _>(rt, number, job, planner::rule_of)?;
    }
    Ok(())
}

// The lines of a sheet, for each letter.
fn print_sheet<T: Table>(rt: &HostRuntime, number: u32) -> io::Result<()> {
    for letter in [Letter::D, Letter::J, Letter::L] {
        print_lines::<T>(rt, number, letter)?;
    }
    Ok(())
}

// All lines of a table.
pub fn print_table<T: Table>(rt: &HostRuntime) -> io::Result<()> {
    for number in 1..=T::SHEETS {
        print_sheet::<T>(rt, number)?;
    }
    Ok(())
}
