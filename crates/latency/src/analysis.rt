// What tells one rule from another: how the flows above a flow delay it.
ghost use Rattle.std.specs.Prelude.{◌≡◌, ℕ, ◌≤◌, true, List, [], length, Ok, Err, Option, Result};
ghost use Rattle.chip.specs.declared.parameters.FlowParameters.{FlowParameters};
ghost use Rattle.chip.specs.declared.refusal.Refusal.{Refusal};
ghost use Rattle.rule.specs.FlowSets.{marks_of, members};
ghost use Rattle.rule.specs.Laws.{Lawful};
ghost use Rattle.rule.specs.Lists.{distinct, proper};
ghost use Rattle.rule.specs.Meaning.{leading};
ghost use Rattle.rule.specs.Questions.{table};
ghost use Rattle.latency.specs.Analyses.{meaning_of};
ghost use Rattle.latency.specs.Chips.{chip, HasFlow, HasFlows};

use crate::traffic::Traffic;
use rule::{Bounds, FlowSet};

// The answers of a rule to proper questions, by the flows of a chip.
pub trait Analysis {
    // The bound of a flow under the flows of a list, highest first.
    ghost bound: { List FlowParameters → ℕ → List ℕ → Option ℕ };

    // The floor and the ceiling of a flow under the flows of a set.
    ghost floor: { List FlowParameters → ℕ → List ℕ → Option ℕ };

    ghost ceiling: { List FlowParameters → ℕ → List ℕ → Option ℕ };

    // What the reply to a question for a bound tells, in the words of the rule's equation.
    ghost told: { List FlowParameters → ℕ → List ℕ → Result (Option ℕ) Refusal → Type 0 };

    fn bound(traffic: &Traffic, f: u8, above: &[u8]) -> Option<u32>
        requires { proper (length (chip traffic.now)) f above.now ≡ true }
        ensures value { result ≡ bound (chip traffic.now) f above.now }
        ensures tells { told (chip traffic.now) f above.now (Ok result) };

    fn floor(traffic: &Traffic, f: u8, others: FlowSet) -> Option<u32>
        requires { HasFlow (chip traffic.now) f × HasFlows (chip traffic.now) (marks_of others) }
        ensures { result ≡ floor (chip traffic.now) f (members (marks_of others)) };

    fn ceiling(traffic: &Traffic, f: u8, others: FlowSet) -> Option<u32>
        requires { HasFlow (chip traffic.now) f × HasFlows (chip traffic.now) (marks_of others) }
        ensures { result ≡ ceiling (chip traffic.now) f (members (marks_of others)) };

    // The bounds of the flows of a list, highest first, each under those before it, up to the first that has none.
    fn bounds(traffic: &Traffic, list: &[u8]) -> Bounds
        requires { distinct (length (chip traffic.now)) list.now ≡ true }
        ensures { result ≡ table (leading (meaning_of bound floor ceiling (chip traffic.now)) [] list.now) };

    // A refusal tells nothing.
    ghost refused: { (fs : List FlowParameters) (f : ℕ) (above : List ℕ) (e : Refusal) → told fs f above (Err e) };

    ghost lawful: { (fs : List FlowParameters) → 1 ≤ length fs → length fs ≤ 20 → Lawful (meaning_of bound floor ceiling fs) };
}
