// What a search finds: its order, its count of placings, and how it stands on the way.
use rule::Rule;
use search::{Outcome, Search};
use std::io;

// How many advances of 1,000 placings end every search: 7 flows make at most 13,699.
const ADVANCES: u32 = 14;

// The flow of each level and its bound.
fn print_levels<R: Rule>(rt: &HostRuntime, search: &Search<R>) -> io::Result<()> {
    for k in 1..=7u8 {
        if let Ok(level) = search.level(k) {
            print!(rt; " {}:{}", level.flow, level.bound)?;
        }
    }
    Ok(())
}

fn print_end<R: Rule>(rt: &HostRuntime, search: &Search<R>) -> io::Result<()> {
    print!(rt; " |")?;
    match search.outcome() {
        Outcome::Order => print_levels(rt, search)?,
        outcome => print!(rt; " {outcome}")?,
    }
    print!(rt; " | {} | ", search.count())
}

// An advance after the end is refused, and changes nothing.
fn finish<R: Rule>(search: &mut Search<R>) {
    for _ in 0..ADVANCES {
        let _ = search.advance(1000);
    }
}

// A group each for the order found, the count of placings, and how the search stood after 4 placings and after 5.
pub fn print_search<R: Rule>(rt: &HostRuntime, search: &mut Search<R>) -> io::Result<()> {
    let _ = search.advance(4);
    let after_four = search.outcome();
    let _ = search.advance(1);
    let after_five = search.outcome();
    finish(search);
    print_end(rt, search)?;
    print!(rt; "{after_four}, {after_five}")
}
