// The rule: every bound, floor and ceiling is the basic latency, if that is no later than the deadline.
ghost use Rattle.std.specs.Prelude.{◌≡◌, ◌≤◌, true, replicate, if◌then◌else◌, [], ◌∷◌, ◌++◌, length, Ok, Err, OnErr, nat_lt, slice_set};
ghost use Rattle.chip.specs.declared.refusal.Refusal.TheVariants.{TooManyFlows};
ghost use Rattle.rule.specs.Lists.{is_flow};
ghost use Rattle.rule.specs.Meaning.{answer};
ghost use Rattle.uncontended.specs.Uncontended.{flow_at, in_time, uncontended};
ghost use Rattle.uncontended.specs.Laws;
ghost use Rattle.table.specs.Listed.{cells};

use crate::flow::Flow;
use chip::{MAX_FLOWS, Refusal};
use rule::{FlowSet, Rule, is_flow, is_proper, is_proper_set};
use table::Table;

// The most flows that a rule may have; the table takes the same number as a usize.
pub const MOST_FLOWS: u8 = 20;

#[derive(Clone, Copy)]
pub struct Uncontended {
    flows: Table<Flow, MAX_FLOWS>,
    ghost some: { 1 ≤ length flows.items },
    ghost few: { length flows.items ≤ 20 },
}

impl Uncontended {
    // The rule of one flow, which fills the other places of the table, too.
    pub fn new(first: Flow) -> Uncontended
        ensures flows { result.flows.items ≡ first ∷ [] }
        ensures table { cells result.flows ≡ replicate 20 first }
    {
        Uncontended {
            flows: Table::of(first),
        }
    }

    // Takes one more flow, as the next number; refuses a 21st, and then nothing changes.
    pub fn add(&mut self, flow: Flow) -> Result<(), Refusal>
        ensures reply { result ≡ (if nat_lt (length self.old.flows.items) 20 then Ok tt else Err TooManyFlows) }
        ensures flows { self.new.flows.items ≡ (if nat_lt (length self.old.flows.items) 20 then self.old.flows.items ++ flow ∷ [] else self.old.flows.items) }
        ensures err { OnErr result (self.new ≡ self.old) }
        ensures table { cells self.new.flows ≡ (if nat_lt (length self.old.flows.items) 20 then slice_set (cells self.old.flows) (length self.old.flows.items) flow else cells self.old.flows) }
    {
        self.flows.push(flow).map_err(|_| Refusal::TooManyFlows)
    }

    // Flow number f; refuses a number that is none.
    fn flow(&self, f: u8) -> Result<Flow, Refusal>
        ensures { result ≡ answer (is_flow (length self.now.flows.items) f) (flow_at self.now.flows.items f) }
    {
        if !is_flow(self.flows(), f) {
            return Err(Refusal::ImproperQuestion);
        }
        Ok(self.flows.as_slice()[f as usize - 1])
    }

    // The basic latency of flow f, if it is in time; refuses an improper question.
    fn told(&self, proper: bool, f: u8) -> Result<Option<u32>, Refusal>
        requires { proper ≡ true → is_flow (length self.now.flows.items) f ≡ true }
        ensures { result ≡ answer proper (in_time (flow_at self.now.flows.items f)) }
    {
        if !proper {
            return Err(Refusal::ImproperQuestion);
        }
        Ok(self.flow(f)?.in_time())
    }
}

impl Rule for Uncontended {
    ghost meaning = { λ s. uncontended (length s.flows.items) s.flows.items };

    ghost lawful = { λ s. Laws.lawful (length s.flows.items) s.flows.items s.some s.few };

    fn flows(&self) -> u8 {
        self.flows.len() as u8
    }

    fn deadline(&self, f: u8) -> Result<u32, Refusal> {
        Ok(self.flow(f)?.deadline)
    }

    fn label(&self, f: u8) -> Result<u16, Refusal> {
        Ok(self.flow(f)?.label)
    }

    fn bound(&self, f: u8, above: &[u8]) -> Result<Option<u32>, Refusal> {
        self.told(is_proper(self.flows(), f, above), f)
    }

    fn floor(&self, f: u8, others: FlowSet) -> Result<Option<u32>, Refusal> {
        self.told(is_proper_set(self.flows(), f, others), f)
    }

    fn ceiling(&self, f: u8, others: FlowSet) -> Result<Option<u32>, Refusal> {
        self.floor(f, others)
    }
}
