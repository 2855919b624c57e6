// Prints what the three rules answer on many sheets, bare and under both layers, and what the search finds: a line for
// each sheet, letter and kind, as docs/TRIALS.md has it. A second program, in C, prints the same table.
#![tactic(auto)]

mod orders;

use crate::orders::print_search;
use rule::Rule;
use search::Search;
use std::io;
use trial_sheets::{Table, print_answers, print_table};

struct Trials;

impl Table for Trials {
    const FIXED: u32 = 11;

    const SHEETS: u32 = 360;

    fn print_groups<R: Rule + Drop>(rt: &HostRuntime, rule: R) -> io::Result<()> {
        print_answers(rt, &rule)?;
        print_search(rt, &mut Search::open(rule))
    }
}

fn main(rt: HostRuntime) -> io::Result<()> {
    print_table::<Trials>(&rt)
}
