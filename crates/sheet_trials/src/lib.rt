// Trials of reading and writing sheets on worked examples: whole, cut short, damaged, and at their limits.
#![tactic(auto)]

mod builder;
#[cfg(test)]
mod tests;
