// The questions that any rule answers, by its meaning and under its laws.
ghost use Rattle.std.specs.Prelude.{◌≡◌};
ghost use Rattle.rule.specs.FlowSets.{marks_of};
ghost use Rattle.rule.specs.Laws.{Lawful};
ghost use Rattle.rule.specs.Meaning.{Meaning};
ghost use Rattle.rule.specs.Questions.{asked_deadline, asked_label, asked_bound, asked_floor, asked_ceiling, asked_bounds};

use crate::bounds::Bounds;
use crate::flow_set::FlowSet;
use crate::proper::is_distinct;
use chip::Refusal;

// A rule answers by its meaning, keeps the laws, and is unchanged by questions. It refuses a question that names
// a number outside 1 to the number of flows, a flow twice, or the asked flow among the others, and no other.
pub trait Rule {
    // The answers to all questions.
    ghost meaning: { Self → Meaning };

    // The number of flows, 1 to 20.
    fn flows(&self) -> u8
        ensures { result ≡ (meaning self.now).flows };

    // The deadline of flow f, in ticks.
    fn deadline(&self, f: u8) -> Result<u32, Refusal>
        ensures { result ≡ asked_deadline (meaning self.now) f };

    // The label of flow f.
    fn label(&self, f: u8) -> Result<u16, Refusal>
        ensures { result ≡ asked_label (meaning self.now) f };

    // The bound of flow f under the flows of `above`, highest first.
    fn bound(&self, f: u8, above: &[u8]) -> Result<Option<u32>, Refusal>
        ensures { result ≡ asked_bound (meaning self.now) f above.now };

    // The floor of flow f under the flows of `others`, in no order.
    fn floor(&self, f: u8, others: FlowSet) -> Result<Option<u32>, Refusal>
        ensures { result ≡ asked_floor (meaning self.now) f (marks_of others) };

    // The ceiling of flow f under the flows of `others`, in no order.
    fn ceiling(&self, f: u8, others: FlowSet) -> Result<Option<u32>, Refusal>
        ensures { result ≡ asked_ceiling (meaning self.now) f (marks_of others) };

    // The bounds of the flows of a list, highest first, each under those before it, up to the first flow that has
    // none. A rule that can work them out in one pass writes its own.
    fn bounds(&self, list: &[u8]) -> Result<Bounds, Refusal>
        ensures { result ≡ asked_bounds (meaning self.now) list.now }
    {
        if !is_distinct(self.flows(), list) {
            return Err(Refusal::ImproperQuestion);
        }
        let mut told = Bounds::none();
        for (i, f) in list.iter().enumerate() {
            match self.bound(*f, &list[..i])? {
                Some(ticks) => told.push(ticks),
                None => return Ok(told),
            }
        }
        Ok(told)
    }

    ghost lawful: { (r : Self) → Lawful (meaning r) };
}
