// The fields of a sheet, and which may come next.
ghost use Rattle.std.specs.Prelude.{◌≡◌};
ghost use Rattle.layout.specs.Faults.{allows, length_for};
ghost use Rattle.layout.specs.Layout.{tag_of};
ghost use Rattle.layout.specs.Tags.{tag_number, Decodes};

use chip::{FlowParameters, Refusal};
use sheet::Pair;

// The kinds of field, each with the number that stands for it.
#[derive(Clone, Copy, PartialEq, Eq)]
pub enum Tag {
    Rule = 1,
    Flow,
    Reserve,
    Pair,
    End,
}

impl Tag {
    // The byte that tells the kind.
    pub(crate) fn number(self) -> u8
        ensures { result ≡ tag_number self }
    {
        self as u8
    }

    // The length of the value of such a field.
    pub(crate) fn length(self) -> u16
        ensures { result ≡ length_for (tag_number self) }
    {
        match self {
            Tag::Rule => 1,
            Tag::Flow => 22,
            Tag::Reserve | Tag::Pair => 4,
            Tag::End => 0,
        }
    }
}

impl TryFrom<u8> for Tag {
    type Error = Refusal;

    ghost try_from_gives = { Decodes };

    fn try_from(number: u8) -> Result<Tag, Refusal> {
        match number {
            1 => Ok(Tag::Rule),
            2 => Ok(Tag::Flow),
            3 => Ok(Tag::Reserve),
            4 => Ok(Tag::Pair),
            5 => Ok(Tag::End),
            _ => Err(Refusal::Tag),
        }
    }
}

// A field by what its tag and its value say.
#[derive(Clone, Copy)]
pub enum Entry {
    // The rule field, with the byte that stands for the letter.
    Rule(u8),
    Flow(FlowParameters),
    // The reserve field, with its ticks.
    Reserve(u32),
    Pair(Pair),
    End,
}

impl Entry {
    // The kind of the field.
    pub(crate) fn tag(&self) -> Tag
        ensures { tag_number result ≡ tag_of self.now }
    {
        match self {
            Entry::Rule(_) => Tag::Rule,
            Entry::Flow(_) => Tag::Flow,
            Entry::Reserve(_) => Tag::Reserve,
            Entry::Pair(_) => Tag::Pair,
            Entry::End => Tag::End,
        }
    }
}

// How far a sheet has been read.
#[derive(Clone, Copy)]
pub enum Stage {
    // Nothing yet: the rule field comes.
    Rule,
    // The rule field: the first flow comes.
    FirstFlow,
    // Some flows: a flow, the reserve, a pair or the end comes.
    Flows,
    // The reserve or a pair: a pair or the end comes.
    Pairs,
    // The end field: nothing comes.
    Done,
}

impl Stage {
    // Whether a field of this kind may come next.
    pub(crate) fn allows(self, tag: Tag) -> bool
        ensures { result ≡ allows self (tag_number tag) }
    {
        match self {
            Stage::Rule => tag == Tag::Rule,
            Stage::FirstFlow => tag == Tag::Flow,
            Stage::Flows => tag != Tag::Rule,
            Stage::Pairs => matches!(tag, Tag::Pair | Tag::End),
            Stage::Done => false,
        }
    }
}
