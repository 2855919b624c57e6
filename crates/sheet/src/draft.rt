// A draft: flows are added to it until it is closed into a sheet.
ghost use Rattle.std.specs.Prelude.{◌≡◌, [], ◌∷◌};
ghost use Rattle.chip.specs.Flows.{Answers};
ghost use Rattle.sheet.specs.Flows.{add_fault, after_adding};
ghost use Rattle.sheet.specs.Sheets.{drafted, flows_of};

use crate::sheet::Sheet;
use chip::{Flow, Refusal};

// The sheet that it would be closed into. No model: of a bare list it would not be known that the sheet's rules hold.
#[derive(Drop)]
pub struct Draft {
    pub(crate) sheet: Sheet,
}

impl Draft {
    // A draft of one flow.
    pub fn open(first: Flow) -> Draft
        ensures { drafted result ≡ first.parameters ∷ [] }
    {
        Draft {
            sheet: Sheet::of(first),
        }
    }

    // Puts one more flow last. Refuses a label that is already there, then a 21st flow; a refusal changes
    // nothing.
    pub fn add(&mut self, flow: Flow) -> Result<(), Refusal>
        ensures reply { Answers result (add_fault (drafted self.old) flow.parameters) (λ _. Unit {0}) }
        ensures after { drafted self.new ≡ after_adding (drafted self.old) flow.parameters }
    {
        self.sheet.add(flow)
    }

    // Closes the draft: the sheet holds its flows in their order.
    pub fn close(self) -> Sheet
        ensures { flows_of result ≡ drafted self }
    {
        let Draft { sheet } = self;
        sheet
    }
}
