// The rule of a job: precedence on reserve on the rule of its letter.
ghost use Rattle.std.specs.Prelude.{◌≡◌, ◌==◌, cond, true, map, Some, None};
ghost use Rattle.std.specs.List.{position, slice_get};
ghost use Rattle.std.specs.Option.{option_map};
ghost use Rattle.precedence.specs.Held.{pairs_of};
ghost use Rattle.any_rule.specs.AnyRules.{meaning_any};
ghost use Rattle.job.specs.Jobs.{contents};
ghost use Rattle.sheet.specs.Flows.{labelled};
ghost use Rattle.sheet.specs.Pairs.{pair_holds};
ghost use Rattle.sheet.specs.Sheets.{flows_of};
ghost use Rattle.planner.specs.JobRules.{number, numbered, offers, ticks_or_0, job_meaning, judged, taken};

use any_rule::AnyRule;
use chip::{Flow, Ticks};
use job::Job;
use precedence::{Pair, Precedence};
use reserve::Reserve;
use rule::Rule;
use sheet::Sheet;
use std::array;

// A rule D, J or L with a reserve, and with precedence on that.
pub type JobRule = Precedence<Reserve<AnyRule>>;

// The place, from 0 up, of the first flow with this label.
fn place_of(flows: &[Flow], label: u16) -> Option<usize>
    ensures { result ≡ position (λ f. label == f.parameters.label) flows.now }
{
    flows
        .iter()
        .position(|flow| label == flow.parameters().label)
}

// The number of the flow with this label, if the sheet has it.
fn number_of(sheet: &Sheet, label: u16) -> Option<u8>
    ensures { result ≡ cond (labelled label (flows_of sheet.now)) (Some (number (flows_of sheet.now) label)) None }
{
    place_of(sheet.flows(), label).map(|place| place as u8 + 1)
}

// The pair of the numbers of the two flows that a pair of labels names, if the sheet has both.
fn numbered(sheet: &Sheet, pair: sheet::Pair) -> Option<Pair>
    ensures { pair_holds (flows_of sheet.now) pair ≡ true → result ≡ Some (numbered (flows_of sheet.now) pair) }
{
    Some(Pair {
        first: number_of(sheet, pair.first)?,
        later: number_of(sheet, pair.later)?,
    })
}

// The pair at a place of a job, by flow numbers; none past the last.
fn numbered_at(job: &Job, place: usize) -> Option<Pair>
    ensures { result ≡ option_map (numbered (contents job.now).flows) (slice_get (contents job.now).pairs place) }
{
    numbered(job.sheet(), job.pair(place)?)
}

// The pairs of a job by flow numbers, in their order; the places past the last hold none.
fn numbered_pairs(job: &Job) -> [Option<Pair>; 16]
    ensures { offers result ≡ map (numbered (contents job.now).flows) (contents job.now).pairs }
{
    array::from_fn(|place| numbered_at(job, place))
}

// The reserve of a job, 0 ticks if it has none.
fn reserve_of(job: &Job) -> Ticks
    ensures { result.count ≡ ticks_or_0 (contents job.now).reserve }
{
    job.reserve().unwrap_or(Ticks::new(0).unwrap())
}

// Offers pairs to a precedence, one by one.
fn with_pairs(mut rule: JobRule, pairs: &[Option<Pair>]) -> JobRule
    ensures held { pairs_of result.pairs ≡ taken (meaning_any rule.rule.rule).flows (pairs_of rule.pairs) (offers pairs.now) }
    ensures below { result.rule ≡ rule.rule }
{
    // No `flatten`: it was tried, and two goals of its proof stayed open; this loop is proved from its invariant alone.
    for place in pairs {
        if let Some(pair) = place {
            let _ = rule.add(pair.first, pair.later);
        }
    }
    rule
}

// The rule by which a job judges its flows: its pairs, on its reserve, on the rule of its letter. The job is used
// up. No pair is refused, since each names two flows of the sheet and there are at most 16.
pub fn rule_of(job: Job) -> JobRule
    ensures { judged result ≡ job_meaning (contents job) }
{
    let pairs = numbered_pairs(&job);
    let reserve = reserve_of(&job);
    let rule = AnyRule::new(job.letter(), job.into_sheet());
    let rule = Precedence::new(Reserve::new(rule, reserve));
    with_pairs(rule, &pairs)
}
