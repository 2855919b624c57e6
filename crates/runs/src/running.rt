// A list of calls made on a search, one after another.
ghost use Rattle.std.specs.Prelude.{◌≡◌, length};
ghost use Rattle.std.specs.Option.{option_map};
ghost use Rattle.search.specs.Searches.{Walked};
ghost use Rattle.search.specs.Tables.{standing};
ghost use Rattle.runs.specs.Promise.{Made, Promise, Ran, made_of};
ghost use Rattle.runs.specs.Runs.{rival_of, rival_reply};

use crate::calls::{Answer, Call, Reply};
use chip::Refusal;
use rule::Rule;
use search::Search;

// Whether the plan of a search is that of another; refuses without another search, and unless both have ended.
fn same<R: Rule, Q: Rule>(search: &Search<R>, other: Option<&Search<Q>>) -> Result<bool, Refusal>
    ensures { result ≡ rival_reply (R.Rule.meaning search.now.rule) (standing search.now.walk) (rival_of Q.Rule.meaning (option_map (λ x. x.now) other.entry)) }
{
    search.same_plan(other.ok_or(Refusal::NoOutcome)?)
}

// Makes one call on a search: `other` is the search, if any, that plans are compared with, `plan` the buffer that they are
// written to.
fn make<R: Rule, Q: Rule>(
    search: &mut Search<R>,
    call: Call,
    other: Option<&Search<Q>>,
    plan: &mut [u8],
) -> Reply
    ensures held { search.new.rule ≡ search.old.rule }
    ensures made { Made (R.Rule.meaning search.old.rule) (rival_of Q.Rule.meaning (option_map (λ x. x.now) other.entry)) call search.old.walk search.new.walk plan.old plan.new result }
{
    match call {
        Call::Advance(placings) => search.advance(placings).map(|()| Answer::Advanced),
        Call::Outcome => Ok(Answer::Outcome(search.outcome())),
        Call::Count => Ok(Answer::Count(search.count())),
        Call::Level(k) => search.level(k).map(Answer::Level),
        Call::Plan => search.write_plan(plan).map(Answer::Plan),
        Call::Same => same(search, other).map(Answer::Same),
    }
}

// Opens a search on a rule and makes a list of calls on it; a call without room for its reply is not made. Gives the
// search and the replies: whatever the rule and the calls, the promise holds.
pub fn run<R: Rule, Q: Rule>(
    rule: R,
    calls: &[Call],
    other: Option<&Search<Q>>,
    plan: &mut [u8],
    replies: &mut [Reply],
) -> Search<R>
    ensures held { result.rule ≡ rule }
    ensures walked { Walked (R.Rule.meaning rule) result.walk }
    ensures ran { Ran (R.Rule.meaning rule) calls.now replies.old replies.new plan.old plan.new }
    ensures promise { Promise (R.Rule.meaning rule) (rival_of Q.Rule.meaning (option_map (λ x. x.now) other.entry)) calls.now replies.new (length plan.old) (made_of calls.now replies.old) result.walk }
{
    let mut search = Search::open(rule);
    let made = calls.len().min(replies.len());
    // No `iter_mut().zip(calls)`: of the places it lends a proof knows no element afterwards; by place it knows each.
    for (i, call) in calls[..made].iter().enumerate() {
        replies[i] = make(&mut search, *call, other, plan);
    }
    search
}
