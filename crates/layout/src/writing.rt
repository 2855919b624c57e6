// Writing: the layout of a job goes into the caller's buffer.
ghost use Rattle.std.specs.Prelude.{◌≡◌, ◌+◌, ◌≤◌, ◌++◌, length};
ghost use Rattle.std.specs.List.{flat_map};
ghost use Rattle.chip.specs.Flows.{Answers};
ghost use Rattle.job.specs.Jobs.{contents};
ghost use Rattle.sheet.specs.Sheets.{flows_of};
ghost use Rattle.layout.specs.Layout.{flow_bytes, pair_bytes, reserve_bytes, layout};
ghost use Rattle.layout.specs.Writing.{write_fault, written_over, ReadsBack};

use crate::entry::Entry;
use crate::page::{MAX_SHEET, Page};
use chip::Refusal;
use job::Job;
use sheet::Sheet;

// Lays out the flows of a sheet.
// No one function with `pairs`: each is a loop of one line, and the field of an item would be a closure with a clause.
fn flows(page: &mut Page, sheet: &Sheet)
    requires { length page.old + length (flat_map flow_bytes (flows_of sheet.now)) ≤ MAX_SHEET }
    ensures { page.new ≡ page.old ++ flat_map flow_bytes (flows_of sheet.now) }
{
    for flow in sheet.flows() {
        page.entry(Entry::Flow(flow.parameters()));
    }
}

// Lays out the reserve of a job, if it has one.
fn reserve(page: &mut Page, job: &Job)
    requires { length page.old + length (reserve_bytes (contents job.now).reserve) ≤ MAX_SHEET }
    ensures { page.new ≡ page.old ++ reserve_bytes (contents job.now).reserve }
{
    if let Some(ticks) = job.reserve() {
        page.entry(Entry::Reserve(ticks.count()));
    }
}

// Lays out the pairs of a job.
fn pairs(page: &mut Page, job: &Job)
    requires { length page.old + length (flat_map pair_bytes (contents job.now).pairs) ≤ MAX_SHEET }
    ensures { page.new ≡ page.old ++ flat_map pair_bytes (contents job.now).pairs }
{
    for pair in job.pairs() {
        page.entry(Entry::Pair(*pair));
    }
}

// Lays out a job.
fn lay_out(job: &Job) -> Page
    ensures { result ≡ layout (contents job.now) }
{
    let mut page = Page::blank();
    page.entry(Entry::Rule(char::from(job.letter()) as u8));
    flows(&mut page, job.sheet());
    reserve(&mut page, job);
    pairs(&mut page, job);
    page.entry(Entry::End);
    page
}

// Writes the layout of the job to the front of the buffer, and tells its length. Refuses a buffer that is shorter,
// and leaves it as it was. Whoever reads the bytes again gets the same job.
pub fn write(job: &Job, buffer: &mut [u8]) -> Result<usize, Refusal>
    ensures reply { Answers result (write_fault (layout (contents job.now)) buffer.old) (λ n. n ≡ length (layout (contents job.now))) }
    ensures after { buffer.new ≡ written_over (layout (contents job.now)) buffer.old }
    ensures back { ReadsBack (contents job.now) }
{
    lay_out(job).copy_to(buffer)
}
