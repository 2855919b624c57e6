// Whether a question may be asked: every number in it is a flow of the rule, and none stands twice.
ghost use Rattle.std.specs.Prelude.{◌≡◌};
ghost use Rattle.rule.specs.Lists.{is_flow, distinct, proper, proper_set};
ghost use Rattle.rule.specs.FlowSets.{marks_of};

use crate::flow_set::FlowSet;

// Whether f is one of the flows 1 to `flows`.
pub fn is_flow(flows: u8, f: u8) -> bool
    ensures { result ≡ is_flow flows f }
{
    1 <= f && f <= flows
}

// Whether the list holds only flows of 1 to `flows`, and none twice.
pub fn is_distinct(flows: u8, list: &[u8]) -> bool
    ensures { result ≡ distinct flows list.now }
{
    let mut seen = [false; 256];
    for g in list {
        if !is_flow(flows, *g) || seen[*g as usize] {
            return false;
        }
        seen[*g as usize] = true;
    }
    true
}

// Whether the bound of f under the list `above` may be asked.
pub fn is_proper(flows: u8, f: u8, above: &[u8]) -> bool
    ensures { result ≡ proper flows f above.now }
{
    is_flow(flows, f) && !above.contains(&f) && is_distinct(flows, above)
}

// Whether the floor or ceiling of f under the set `others` may be asked.
pub fn is_proper_set(flows: u8, f: u8, others: FlowSet) -> bool
    ensures { result ≡ proper_set flows f (marks_of others) }
{
    is_flow(flows, f) && others.is_within(flows) && !others.has(f)
}
