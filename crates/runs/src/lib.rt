// Runs of a plan: replaying a list of ways, and the laws over whole runs.
#![tactic(auto)]

ghost use Rattle.plans.specs.Tasks.{task_views};
ghost use Rattle.runs.specs.Laws.{RunLaws};
ghost use Rattle.runs.specs.Replay.{Replays};

use dispatch::Dispatch;
use outcome::{Cause, Outcome};
use plans::plan::Plan;
use slot::event::Event;
use slot::state::State;
use slot::{start, walk};
use streams::Stream;

// Why a replay stopped: the next way is void, or the run is late, or the ways or the places for events came to an end.
#[derive(Clone, Copy)]
pub enum Stop {
    Void,
    Late { task: u8, cause: Cause },
    End { state: State },
}

// How many slots were walked, and why no more. A count, and no slice of the trace: the contract says of the whole trace what is written and what stays.
#[derive(Clone, Copy)]
pub struct Replayed {
    pub slots: usize,
    pub stop: Stop,
}

// Walks a list of ways from the start and writes what each slot shows.
// Plan and rule go in apart: `Schedule` joins them above, where tables are, and no layer knows those above it.
pub fn replay<S: Stream, D: Dispatch>(
    plan: &Plan<S>,
    rule: &D,
    ways: &[u32],
    trace: &mut [Event],
) -> Replayed
    ensures value { Replays (task_views S.Stream.meaning plan.now.tasks) (D.Dispatch.picks rule.now) ways.now trace.old trace.new result }
    ensures laws { RunLaws (task_views S.Stream.meaning plan.now.tasks) (D.Dispatch.picks rule.now) }
{
    let mut state = start::start(plan);
    let most = ways.len().min(trace.len());
    for (i, way) in ways[..most].iter().enumerate() {
        let event = walk::observe(plan, rule, &state, *way);
        match walk::walk(plan, rule, &state, *way) {
            Outcome::Void => return Replayed {
                slots: i,
                stop: Stop::Void,
            },
            Outcome::Late {
                task,
                cause,
                ended: _ended,
            } => {
                trace[i] = event;
                return Replayed {
                    slots: i + 1,
                    stop: Stop::Late { task, cause },
                };
            }
            Outcome::Next {
                state: after,
                ended: _ended,
            } => {
                trace[i] = event;
                state = after;
            }
        }
    }
    Replayed {
        slots: most,
        stop: Stop::End { state },
    }
}
