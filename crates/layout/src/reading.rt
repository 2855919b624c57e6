// Reading: the bytes of a sheet become a job, or are refused at their first fault.
ghost use Rattle.std.specs.Prelude.{◌≡◌, true, [], ◌∷◌, ◌++◌, IfOk, Some, MatchResult};
ghost use Rattle.chip.specs.Reserves.{reserve_fault};
ghost use Rattle.job.specs.Jobs.{contents, with_reserve};
ghost use Rattle.sheet.specs.Sheets.{drafted};
ghost use Rattle.sheet.specs.declared.letter.Letter.{Letter as RuleLetter};
ghost use Rattle.layout.specs.Faults.{blank, allows};
ghost use Rattle.layout.specs.Layout.{tag_of};
ghost use Rattle.layout.specs.Progress.{standing, ruled, part_of, flows_alone, flow_told, pair_told, with_last, AnswersAt, Refuses, Ends, Underway, Wish, LastWish};
ghost use Rattle.layout.specs.Reading.{State, Reads, ReadExactly, answer_of};

use crate::entry::{Entry, Stage};
use crate::fault::Fault;
use crate::reader::Reader;
use chip::{Flow, FlowParameters, Ticks};
use job::Job;
use sheet::{Draft, Letter, Pair};

// The letter of the rule field, which comes first.
// No one function with `first_flow`: the kind of field, the call and what is read would all be its parameters.
fn letter(reader: &mut Reader<'_>) -> Result<Letter, Fault>
    ensures { MatchResult result (λ l. Reads (standing blank reader.old) (standing (ruled l) reader.new)) (λ f. Refuses (standing blank reader.old) f) }
{
    let Entry::Rule(byte) = reader.entry(Stage::Rule)? else {
        unreachable!();
    };
    reader.at_field(Letter::try_from(byte as char))
}

// The first flow, which comes after the rule field.
fn first_flow(reader: &mut Reader<'_>) -> Result<Flow, Fault>
    ensures { (l : RuleLetter) → MatchResult result (λ flow. Reads (standing (ruled l) reader.old) (standing (part_of Stage.Flows (flows_alone l (flow.parameters ∷ []))) reader.new)) (λ f. Refuses (standing (ruled l) reader.old) f) }
{
    let Entry::Flow(parameters) = reader.entry(Stage::FirstFlow)? else {
        unreachable!();
    };
    reader.at_field(Flow::new(parameters))
}

// Adds the flow that was read to the draft.
fn add_flow(reader: &Reader<'_>, draft: &mut Draft, parameters: FlowParameters) -> Result<(), Fault>
    ensures { AnswersAt reader.now.field result (flow_told (drafted draft.old) parameters) (λ _. drafted draft.new ≡ drafted draft.old ++ parameters ∷ []) }
{
    let flow = reader.at_field(Flow::new(parameters))?;
    reader.at_field(draft.add(flow))
}

// Reads flows into the draft from `next` on, up to the first field that is no flow.
// No one function with `pairs`: it would take the kind, the call and its clause as closures, and save two lines.
// No struct of the reader and `next`: it would go on holding the field that was read in last.
fn flows(reader: &mut Reader<'_>, draft: &mut Draft, mut next: Entry) -> Result<Entry, Fault>
    ensures cases { (from : State) (l : RuleLetter) → Underway from reader.old (flows_alone l (drafted draft.old)) next → MatchResult result (λ e. Underway from reader.new (flows_alone l (drafted draft.new)) e) (λ f. Refuses from f) }
    ensures which { allows Stage.Flows (tag_of next) ≡ true → IfOk result Wish }
{
    while let Entry::Flow(parameters) = next {
        add_flow(reader, draft, parameters)?;
        next = reader.entry(Stage::Flows)?;
    }
    Ok(next)
}

// Gives the job the reserve that was read.
fn set_reserve(reader: &Reader<'_>, job: &mut Job, ticks: u32) -> Result<(), Fault>
    ensures { AnswersAt reader.now.field result (reserve_fault ticks) (λ _. contents job.new ≡ with_reserve (Some ticks) (contents job.old)) }
{
    let reserve = reader.at_field(Ticks::new(ticks))?;
    job.set_reserve(Some(reserve));
    Ok(())
}

// Sets the reserve of the job if `next` tells one, and gives the first field that does not.
fn reserve(reader: &mut Reader<'_>, job: &mut Job, next: Entry) -> Result<Entry, Fault>
    ensures cases { (from : State) → Underway from reader.old (contents job.old) next → MatchResult result (λ e. Underway from reader.new (contents job.new) e) (λ f. Refuses from f) }
    ensures which { Wish next → IfOk result LastWish }
{
    match next {
        Entry::Reserve(ticks) => {
            set_reserve(reader, job, ticks)?;
            reader.entry(Stage::Pairs)
        }
        other => Ok(other),
    }
}

// Adds the pair that was read to the job.
fn add_pair(reader: &Reader<'_>, job: &mut Job, pair: Pair) -> Result<(), Fault>
    ensures { AnswersAt reader.now.field result (pair_told (contents job.old) pair) (λ _. contents job.new ≡ with_last pair (contents job.old)) }
{
    reader.at_field(job.add_pair(pair))
}

// Reads pairs into the job from `next` on, up to the end field, after which nothing comes.
fn pairs(reader: &mut Reader<'_>, job: &mut Job, mut next: Entry) -> Result<(), Fault>
    ensures { (from : State) → Underway from reader.old (contents job.old) next → LastWish next → MatchResult result (λ _. Ends from (contents job.new)) (λ f. Refuses from f) }
{
    while let Entry::Pair(pair) = next {
        add_pair(reader, job, pair)?;
        next = reader.entry(Stage::Pairs)?;
    }
    reader.finish()
}

// Reads the wishes from `next` on into the job, up to the end of the sheet.
fn wishes(reader: &mut Reader<'_>, mut job: Job, next: Entry) -> Result<Job, Fault>
    ensures { (from : State) → Underway from reader.old (contents job) next → Wish next → MatchResult result (λ j. Ends from (contents j)) (λ f. Refuses from f) }
{
    let next = reserve(reader, &mut job, next)?;
    pairs(reader, &mut job, next)?;
    Ok(job)
}

// Reads what follows the first flow.
fn rest(reader: &mut Reader<'_>, letter: Letter, first: Flow) -> Result<Job, Fault>
    ensures { MatchResult result (λ j. Ends (standing (part_of Stage.Flows (flows_alone letter (first.parameters ∷ []))) reader.old) (contents j)) (λ f. Refuses (standing (part_of Stage.Flows (flows_alone letter (first.parameters ∷ []))) reader.old) f) }
{
    let mut draft = Draft::open(first);
    let next = reader.entry(Stage::Flows)?;
    let next = flows(reader, &mut draft, next)?;
    wishes(reader, Job::new(letter, draft.close()), next)
}

// The job whose layout the bytes are; refused, if they are none's, at their first fault.
pub fn read(bytes: &[u8]) -> Result<Job, Fault>
    ensures { ReadExactly bytes.now (answer_of result) }
{
    let mut reader = Reader::new(bytes);
    let letter = letter(&mut reader)?;
    let first = first_flow(&mut reader)?;
    rest(&mut reader, letter, first)
}
