// Prints what the three rules answer on many sheets, bare and under both layers: a line for each sheet, letter and
// kind, as docs/RULE-TRIALS.md has it. A second program, in C, prints the same table.
#![tactic(auto)]

use rule::Rule;
use std::io;
use trial_sheets::{Table, print_answers, print_table};

struct RuleTrials;

impl Table for RuleTrials {
    const FIXED: u32 = 8;

    const SHEETS: u32 = 240;

    fn print_groups<R: Rule + Drop>(rt: &HostRuntime, rule: R) -> io::Result<()> {
        print_answers(rt, &rule)
    }
}

fn main(rt: HostRuntime) -> io::Result<()> {
    print_table::<RuleTrials>(&rt)
}
