// One slot.
ghost use Rattle.std.specs.Prelude.{◌≡◌, ◌*◌, ◌≤◌};
ghost use Rattle.plans.specs.Tasks.{task_views};
ghost use Rattle.slot.specs.Arrivals.{choices};
ghost use Rattle.slot.specs.Work.{round_view};
ghost use Rattle.slot.specs.Slot.{slot, settled, state_view, outcome_view, event};

use crate::arrive::{arrive, stream_ways};
use crate::event::Event;
use crate::round::Round;
use crate::state::State;
use crate::work::{pick_of, serve_all};
use dispatch::Dispatch;
use outcome::{Cause, Ended, Outcome};
use plans::plan::Plan;
use streams::Stream;

// How many ways a state has: two for each choice of ways of the streams.
pub fn ways<S: Stream>(plan: &Plan<S>, state: &State) -> u32
    ensures value { result ≡ 2 * choices (task_views S.Stream.meaning plan.now.tasks) state.now.tasks }
    ensures some { 2 ≤ result }
    ensures few { result ≤ 131072 }
{
    2 * stream_ways(plan, state)
}

// One slot from a state, by the way of this number.
// Plan and rule go in apart: `Schedule` joins them above, where tables are, and no layer knows those above it.
pub fn walk<S: Stream, D: Dispatch>(
    plan: &Plan<S>,
    rule: &D,
    state: &State,
    way: u32,
) -> Outcome<State>
    ensures { outcome_view result ≡ slot (task_views S.Stream.meaning plan.now.tasks) (D.Dispatch.picks rule.now) (state_view state.now) way }
{
    let all = stream_ways(plan, state);
    if way >= 2 * all {
        return Outcome::Void;
    }
    let stay = way / all == 1;
    let came = arrive(plan, state, way % all);
    if let Some(task) = came.overlap {
        return if stay {
            Outcome::Void
        } else {
            Outcome::Late {
                task,
                cause: Cause::Overlap,
                ended: None,
            }
        };
    }
    let pick = pick_of(plan, rule, &came.state);
    settle(serve_all(plan, &came.state, pick, stay), pick, stay)
}

// What the slot comes to, once the tasks have been served.
fn settle(round: Round, pick: u8, stay: bool) -> Outcome<State>
    ensures { outcome_view result ≡ settled stay pick (round_view round) }
{
    if stay && !round.may_choose {
        return Outcome::Void;
    }
    if let Some(task) = round.late {
        return Outcome::Late {
            task,
            cause: Cause::Deadline,
            ended: round.ended,
        };
    }
    let last = if round.ended.is_some() { 0 } else { pick };
    Outcome::Next {
        state: State {
            tasks: round.tasks,
            last,
        },
        ended: round.ended,
    }
}

// What the slot of a way shows.
#[tactic(auto, using(outcome::specs::Outcomes::ended_seen), unfolding(crate::specs::Slot::event))]
pub fn observe<S: Stream, D: Dispatch>(plan: &Plan<S>, rule: &D, state: &State, way: u32) -> Event
    ensures { result ≡ event (task_views S.Stream.meaning plan.now.tasks) (D.Dispatch.picks rule.now) (state_view state.now) way }
{
    let came = arrive(plan, state, way % stream_ways(plan, state));
    let arrivals = came.arrivals;
    let picked = match came.overlap {
        Some(_task) => 0,
        None => pick_of(plan, rule, &came.state),
    };
    Event {
        arrivals,
        picked,
        ended: walk(plan, rule, state, way).ended(),
    }
}
