// The reader: a cursor over the lent bytes of a sheet.
ghost use Rattle.std.specs.Prelude.{◌≡◌, ◌≤◌, ◌<◌, [], ◌∷◌, length, MatchResult};
ghost use Rattle.layout.specs.Cursor.{Took, Headed, Peeked, Misheaded};
ghost use Rattle.layout.specs.Progress.{placed};
ghost use Rattle.layout.specs.Layout.{be16, be32, flow_value, pair_value};

use crate::entry::{Entry, Stage, Tag};
use crate::fault::Fault;
use chip::{FlowParameters, Refusal, Router};
use sheet::Pair;
use std::marker::Model;

// `at` is the cursor, `field` the start of the field that is being read. A clause sees them and the bytes that are left.
#[derive(Drop)]
pub struct Reader<'a> {
    bytes: &'a [u8],
    at: usize,
    field: usize,
}

impl<'a> Model for Reader<'a> {
    ghost use Rattle.std.specs.Prelude.{◌≤◌, length, drop};
    ghost use Rattle.layout.specs.Cursor.{Cursor};

    ghost Value = { Cursor };

    ghost view = { λ r. record { left = drop r.at r.bytes.now; at = r.at; field = r.field } };

    ghost invariant = { λ r. r.at ≤ length r.bytes.now };
}

impl<'a> Reader<'a> {
    // A reader at the first of these bytes.
    pub(crate) fn new(bytes: &'a [u8]) -> Reader<'a>
        ensures { result ≡ record { left = bytes.now; at = 0; field = 0 } }
    {
        Reader {
            bytes,
            at: 0,
            field: 0,
        }
    }

    // How many bytes are left.
    fn left(&self) -> usize
        ensures { result ≡ length self.now.left }
    {
        self.bytes.len() - self.at
    }

    // The next bytes, as many as the array holds.
    fn take<const N: usize>(&mut self) -> [u8; N]
        requires { N ≤ length self.old.left }
        ensures { Took self.old self.new result }
    {
        let taken = self.bytes[self.at..].first_chunk().unwrap();
        self.at += N;
        *taken
    }

    // The number in the next two bytes.
    fn u16(&mut self) -> u16
        requires { 2 ≤ length self.old.left }
        ensures { Took self.old self.new (be16 result) }
    {
        u16::from_be_bytes(self.take())
    }

    // The number in the next four bytes.
    fn u32(&mut self) -> u32
        requires { 4 ≤ length self.old.left }
        ensures { Took self.old self.new (be32 result) }
    {
        u32::from_be_bytes(self.take())
    }

    // The router in the next two bytes.
    fn router(&mut self) -> Router
        requires { 2 ≤ length self.old.left }
        ensures { Took self.old self.new (result.column ∷ result.row ∷ []) }
    {
        let [column, row] = self.take::<2>();
        Router { column, row }
    }

    // The labels in the next four bytes.
    fn pair(&mut self) -> Pair
        requires { 4 ≤ length self.old.left }
        ensures { Took self.old self.new (pair_value result) }
    {
        let first = self.u16();
        let later = self.u16();
        Pair { first, later }
    }

    // What the next 22 bytes say of a flow.
    fn flow(&mut self) -> FlowParameters
        requires { 22 ≤ length self.old.left }
        ensures { Took self.old self.new (flow_value result) }
    {
        let label = self.u16();
        let period = self.u32();
        let deadline = self.u32();
        let jitter = self.u32();
        let latency = self.u32();
        let source = self.router();
        let destination = self.router();
        FlowParameters {
            label,
            period,
            deadline,
            jitter,
            latency,
            source,
            destination,
        }
    }

    // The same result, with the byte of the field that is being read beside a refusal.
    pub(crate) fn at_field<T>(&self, res: Result<T, Refusal>) -> Result<T, Fault>
        ensures { result ≡ placed self.now.field res }
    {
        let byte = self.field;
        res.map_err(|refusal| Fault { refusal, byte })
    }

    // Begins a field: its tag, once its head is sound at this stage and its value is whole.
    fn head(&mut self, stage: Stage) -> Result<Tag, Fault>
        ensures { MatchResult result (λ tag. Headed stage self.old self.new tag) (λ f. Misheaded stage self.old f) }
    {
        self.field = self.at;
        if self.left() < 3 {
            return self.at_field(Err(Refusal::Truncated));
        }
        let [number] = self.take::<1>();
        let length = self.u16();
        let tag = self.at_field(Tag::try_from(number))?;
        if !stage.allows(tag) {
            return self.at_field(Err(Refusal::Tag));
        }
        if length != tag.length() {
            return self.at_field(Err(Refusal::Length));
        }
        if self.left() < length as usize {
            return self.at_field(Err(Refusal::Truncated));
        }
        Ok(tag)
    }

    // The next field, once its head is sound at this stage.
    pub(crate) fn entry(&mut self, stage: Stage) -> Result<Entry, Fault>
        ensures { MatchResult result (λ e. Peeked stage self.old self.new e) (λ f. Misheaded stage self.old f) }
    {
        let entry = match self.head(stage)? {
            Tag::Rule => {
                let [letter] = self.take::<1>();
                Entry::Rule(letter)
            }
            Tag::Flow => Entry::Flow(self.flow()),
            Tag::Reserve => Entry::Reserve(self.u32()),
            Tag::Pair => Entry::Pair(self.pair()),
            Tag::End => Entry::End,
        };
        Ok(entry)
    }

    // Ends the reading: nothing may follow the end field.
    pub(crate) fn finish(&mut self) -> Result<(), Fault>
        ensures { MatchResult result (λ _. self.old.left ≡ []) (λ f. (0 < length self.old.left) × (f ≡ record { refusal = Refusal.TrailingBytes; byte = self.old.at })) }
    {
        self.field = self.at;
        if self.left() > 0 {
            return self.at_field(Err(Refusal::TrailingBytes));
        }
        Ok(())
    }
}
