// What a rule answers: bounds in two orders, floors and ceilings.
ghost use Rattle.std.specs.Prelude.{ℕ, ◌<◌};

use chip::Refusal;
use rule::{FlowSet, Rule};
use std::io;

// The flow numbers in the sheet's order and in the reverse order.
const ORDER: [u8; 7] = [1, 2, 3, 4, 5, 6, 7];

const REVERSE: [u8; 7] = [7, 6, 5, 4, 3, 2, 1];

fn print_answer(rt: &HostRuntime, answer: Result<Option<u32>, Refusal>) -> io::Result<()> {
    match answer {
        Ok(Some(ticks)) => print!(rt; " {ticks}"),
        Ok(None) => print!(rt; " -"),
        Err(_) => print!(rt; " refused"),
    }
}

// A group of a line: what is asked of each of so many flows, by its place from 0 up.
fn print_group<F: Fn(u8) -> Result<Option<u32>, Refusal>>(
    rt: &HostRuntime,
    count: u8,
    ask: F,
) -> io::Result<()>
    requires { (i : ℕ) → i < count → F.pre ask i }
{
    print!(rt; " |")?;
    for i in 0..count {
        print_answer(rt, ask(i))?;
    }
    Ok(())
}

// A group each for the bounds under the flows with smaller numbers, in the sheet's order, the bounds under those with
// larger numbers, in the reverse order, and the floors and the ceilings under all others.
pub fn print_answers<R: Rule>(rt: &HostRuntime, rule: &R) -> io::Result<()> {
    let count = rule.flows().min(7);
    let others = |i: u8| FlowSet::first(count).without(i + 1);
    print_group(rt, count, |i| rule.bound(i + 1, &ORDER[..i.into()]))?;
    print_group(rt, count, |i| {
        rule.bound(i + 1, &REVERSE[(7 - count).into()..(6 - i).into()])
    })?;
    print_group(rt, count, |i| rule.floor(i + 1, others(i)))?;
    print_group(rt, count, |i| rule.ceiling(i + 1, others(i)))
}
