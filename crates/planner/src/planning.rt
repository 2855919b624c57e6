// A job planned: its rule is searched, and the plan written.
ghost use Rattle.std.specs.Prelude.{◌≡◌, length};
ghost use Rattle.chip.specs.Refusals.{number_of};
ghost use Rattle.job.specs.Jobs.{contents};
ghost use Rattle.layout.specs.Reading.{accepted};
ghost use Rattle.search.specs.Plans.{plan_after};
ghost use Rattle.search.specs.Searches.{Walked};
ghost use Rattle.search.specs.Tables.{standing};
ghost use Rattle.walk.specs.Walk.{after};
ghost use Rattle.planner.specs.JobRules.{judged};
ghost use Rattle.planner.specs.Calls.{outcome_number, plan_buffer, plan_refused, plan_told, planned};

use crate::job_rule::{JobRule, rule_of};
use crate::replies::PlanReply;
use chip::Refusal;
use job::Job;
use search::{Outcome, Search};

// A refusal at a byte.
pub(crate) fn refused(refusal: Refusal, byte: usize) -> PlanReply
    ensures { result ≡ plan_refused (number_of refusal) byte }
{
    PlanReply {
        refusal: refusal.number().into(),
        outcome: 0,
        byte,
        length: 0,
        placings: 0,
    }
}

// How a search stands, as the number that a program in C is told.
fn outcome_number(outcome: Outcome) -> u32
    ensures { result ≡ outcome_number outcome }
{
    match outcome {
        Outcome::Open => 0,
        Outcome::Order => 1,
        Outcome::NoOrder => 2,
    }
}

// A search on a rule after so many placings.
fn advanced(rule: JobRule, placings: u32) -> Search<JobRule>
    ensures held { result.rule ≡ rule }
    ensures walked { Walked (judged rule) result.walk }
    ensures stands { standing result.walk ≡ after (judged rule) placings }
{
    let mut search = Search::open(rule);
    let _ = search.advance(placings);
    search
}

// Searches a rule with so many placings, and writes the plan.
fn searched(rule: JobRule, placings: u32, plan: &mut [u8]) -> PlanReply
    ensures reply { result ≡ plan_told (judged rule) (after (judged rule) placings) (length plan.old) }
    ensures buffer { plan.new ≡ plan_after (judged rule) (after (judged rule) placings) plan.old }
{
    let search = advanced(rule, placings);
    let (refusal, length) = match search.write_plan(plan) {
        Ok(length) => (0, length),
        Err(refusal) => (refusal.number().into(), 0),
    };
    PlanReply {
        refusal,
        outcome: outcome_number(search.outcome()),
        byte: 0,
        length,
        placings: search.count(),
    }
}

// Plans a job with so many placings: refuses none, then a search that is still open, then a buffer shorter than the plan.
pub(crate) fn plan_job(job: Job, placings: u32, plan: &mut [u8]) -> PlanReply
    ensures reply { result ≡ planned (accepted (contents job)) placings (length plan.old) }
    ensures buffer { plan.new ≡ plan_buffer (accepted (contents job)) placings plan.old }
{
    if placings == 0 {
        return refused(Refusal::AdvanceOfZero, 0);
    }
    searched(rule_of(job), placings, plan)
}
