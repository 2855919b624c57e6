// The bytes of a sheet as they are laid out, field by field, before they go into a caller's buffer.
ghost use Rattle.std.specs.Prelude.{◌≡◌, ◌+◌, ◌≤◌, ◌∷◌, ◌++◌, [], length};
ghost use Rattle.chip.specs.Flows.{Answers};
ghost use Rattle.layout.specs.Writing.{write_fault, written_over};
ghost use Rattle.layout.specs.Layout.{be16, entry_bytes, flow_value};
ghost use Rattle.layout.specs.Faults.{length_for};
ghost use Rattle.layout.specs.Tags.{tag_number};

use crate::entry::{Entry, Tag};
use chip::{FlowParameters, Refusal};
use std::marker::Model;
use table::Table;

// The longest sheet: the rule, 20 flows, the reserve, 16 pairs and the end.
pub const MAX_SHEET: usize = 626;

// A clause sees the bytes that are laid out, as a list.
#[derive(Drop)]
pub struct Page {
    bytes: Table<u8, MAX_SHEET>,
}

impl Model for Page {
    ghost use Rattle.std.specs.Prelude.{List, ℕ};

    ghost Value = { List ℕ };

    ghost view = { λ page. page.bytes.items };
}

impl Page {
    // The page without a byte.
    pub(crate) fn blank() -> Page
        ensures { result ≡ [] }
    {
        Page {
            bytes: Table::empty(0),
        }
    }

    // Puts these bytes last.
    fn put(&mut self, bytes: &[u8])
        requires { length self.old + length bytes.now ≤ MAX_SHEET }
        ensures { self.new ≡ self.old ++ bytes.now }
    {
        self.bytes.extend(bytes).unwrap();
    }

    // Puts the tag of a field and the length of its value last.
    fn head(&mut self, tag: Tag)
        requires { length self.old + 3 ≤ MAX_SHEET }
        ensures { self.new ≡ self.old ++ tag_number tag ∷ be16 (length_for (tag_number tag)) }
    {
        self.put(&[tag.number()]);
        self.put(&tag.length().to_be_bytes());
    }

    // Puts the value of a flow field last.
    fn flow(&mut self, p: FlowParameters)
        requires { length self.old + 22 ≤ MAX_SHEET }
        ensures { self.new ≡ self.old ++ flow_value p }
    {
        self.put(&p.label.to_be_bytes());
        self.put(&p.period.to_be_bytes());
        self.put(&p.deadline.to_be_bytes());
        self.put(&p.jitter.to_be_bytes());
        self.put(&p.latency.to_be_bytes());
        self.put(&[
            p.source.column,
            p.source.row,
            p.destination.column,
            p.destination.row,
        ]);
    }

    // Puts a field last.
    pub(crate) fn entry(&mut self, e: Entry)
        requires { length self.old + length (entry_bytes e) ≤ MAX_SHEET }
        ensures { self.new ≡ self.old ++ entry_bytes e }
    {
        self.head(e.tag());
        match e {
            Entry::Rule(letter) => self.put(&[letter]),
            Entry::Flow(parameters) => self.flow(parameters),
            Entry::Reserve(ticks) => self.put(&ticks.to_be_bytes()),
            Entry::Pair(pair) => {
                self.put(&pair.first.to_be_bytes());
                self.put(&pair.later.to_be_bytes());
            }
            Entry::End => {}
        }
    }

    // Copies the bytes that are laid out to the front of the buffer, and tells how many there are. Refuses a buffer
    // that is shorter, and leaves it as it was.
    pub(crate) fn copy_to(&self, buffer: &mut [u8]) -> Result<usize, Refusal>
        ensures reply { Answers result (write_fault self.now buffer.old) (λ n. n ≡ length self.now) }
        ensures after { buffer.new ≡ written_over self.now buffer.old }
    {
        self.bytes.copy_to(buffer).map_err(|_| Refusal::ShortBuffer)
    }
}
