// A sheet: 1 to 20 flows, numbered from 1 in their order, with labels of their own.
ghost use Rattle.std.specs.Prelude.{◌≡◌, ◌≤◌, true, [], ◌∷◌, map, length, Decides, ◌==◌};
ghost use Rattle.std.specs.List.{list_any};
ghost use Rattle.sheet.specs.Flows.{said, distinct_labels};

use crate::draft::Draft;
use crate::pair::Pair;
use chip::{Flow, MAX_FLOWS, Refusal};
use table::Table;

// No model: the promise of reading ranges over every job, and so over every sheet; over bare lists it would be false.
#[derive(PartialEq, Eq, Drop)]
pub struct Sheet {
    flows: Table<Flow, MAX_FLOWS>,
    ghost some: { 1 ≤ length (map said flows.items) },
    ghost few: { length (map said flows.items) ≤ 20 },
    ghost distinct: { distinct_labels (map said flows.items) ≡ true },
}

// Whether some flow has this label.
fn any_labelled(flows: &[Flow], label: u16) -> bool
    ensures { result ≡ list_any (λ f. label == f.parameters.label) flows.now }
{
    flows.iter().any(|flow| label == flow.parameters().label)
}

impl Sheet {
    ghost use Rattle.chip.specs.Flows.{Answers};
    ghost use Rattle.sheet.specs.Flows.{labelled, flow_numbered, said_of, add_fault, after_adding};
    ghost use Rattle.sheet.specs.Pairs.{pair_holds};
    ghost use Rattle.sheet.specs.Sheets.{drafted, flows_of};

    // The sheet of one flow.
    pub(crate) fn of(flow: Flow) -> Sheet
        ensures { flows_of result ≡ flow.parameters ∷ [] }
    {
        Sheet {
            flows: Table::of(flow),
        }
    }

    // Opens the sheet again: the draft holds its flows in their order.
    pub fn reopen(self) -> Draft
        ensures { drafted result ≡ flows_of self }
    {
        Draft { sheet: self }
    }

    // The flows in their order.
    pub fn flows(&self) -> &[Flow]
        ensures { map said result.now ≡ flows_of self.now }
    {
        self.flows.as_slice()
    }

    // How many flows there are.
    pub fn count(&self) -> usize
        ensures { result ≡ length (flows_of self.now) }
    {
        self.flows.len()
    }

    // The flow with this number, from 1 up; none outside 1 to the number of flows.
    pub fn flow(&self, number: usize) -> Option<Flow>
        ensures { said_of result ≡ flow_numbered number (flows_of self.now) }
    {
        self.flows.get(number.checked_sub(1)?)
    }

    // Whether some flow has this label.
    pub fn has_label(&self, label: u16) -> bool
        ensures { result ≡ labelled label (flows_of self.now) }
    {
        any_labelled(self.flows(), label)
    }

    // Whether a pair names two flows of the sheet, and not one twice.
    pub fn has_pair(&self, pair: Pair) -> bool
        ensures { result ≡ pair_holds (flows_of self.now) pair }
    {
        self.has_label(pair.first) && self.has_label(pair.later) && pair.first != pair.later
    }

    // Whether the other sheet has the same flows in the same order.
    pub fn same(&self, other: &Sheet) -> bool
        ensures { Decides result (flows_of self.now ≡ flows_of other.now) }
    {
        self == other
    }

    // Puts one more flow last. Refuses a label that is already there, then a 21st flow; a refusal changes
    // nothing.
    pub(crate) fn add(&mut self, flow: Flow) -> Result<(), Refusal>
        ensures reply { Answers result (add_fault (flows_of self.old) flow.parameters) (λ _. Unit {0}) }
        ensures after { flows_of self.new ≡ after_adding (flows_of self.old) flow.parameters }
    {
        if self.has_label(flow.parameters().label) {
            return Err(Refusal::LabelTaken);
        }
        self.flows.push(flow).map_err(|_| Refusal::TooManyFlows)
    }
}
