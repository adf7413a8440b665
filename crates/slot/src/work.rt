// The work, the ages and the deadlines of a slot.
ghost use Rattle.std.specs.Prelude.{◌≡◌};
ghost use Rattle.plans.specs.Tasks.{task_view, task_views};
ghost use Rattle.slot.specs.Work.{serve as served, round_view, serve_all, sees};
ghost use Rattle.slot.specs.Bounded.{JobBounded};

use crate::round::Round;
use crate::state::{Job, State, TaskState};
use dispatch::{Dispatch, Seen};
use outcome::Ended;
use plans::plan::{Plan, Task};
use streams::Stream;

// What a slot does with one task's job: how the task stands after it, the response of a job that ended, whether the job
// may choose to end or to stay, and whether it is late.
#[derive(Clone, Copy)]
pub struct Served {
    pub state: TaskState,
    pub response: Option<u16>,
    pub may_choose: bool,
    pub late: bool,
}

fn serve<S: Stream>(task: &Task<S>, state: TaskState, picked: bool, stay: bool) -> Served
    requires { JobBounded state.job }
    ensures { result ≡ served picked stay (task_view S.Stream.meaning task.now) state }
{
    let Some(Job { work, age }) = state.job else {
        return Served {
            state,
            response: None,
            may_choose: false,
            late: false,
        };
    };
    let work = if picked { work + 1 } else { work };
    let age = age + 1;
    let may_choose = picked && work >= task.times.best && work < task.times.worst;
    let ends = picked && (work >= task.times.worst || (may_choose && !stay));
    Served {
        state: TaskState {
            position: state.position,
            job: (!ends).then_some(Job { work, age }),
        },
        response: ends.then_some(age),
        may_choose,
        late: !ends && age >= task.times.deadline,
    }
}

// The task that the rule picks, 0 for none, as the rules number tasks.
pub fn pick_of<S: Stream, D: Dispatch>(plan: &Plan<S>, rule: &D, state: &State) -> u8
    ensures { result ≡ D.Dispatch.picks rule.now (sees (task_views S.Stream.meaning plan.now.tasks) state.now.tasks) state.now.last }
{
    let mut seen = [Seen::default(); 8];
    for (i, place) in plan.tasks.as_slice().iter().enumerate() {
        let Some(task) = place else {
            break;
        };
        seen[i] = Seen {
            priority: task.times.priority,
            age: state.tasks[i].job.map(|job| job.age),
        };
    }
    rule.pick(&seen[..plan.count()], state.last as usize) as u8
}

// The picked task works, every job ages, and deadlines are checked.
pub fn serve_all<S: Stream>(plan: &Plan<S>, state: &State, pick: u8, stay: bool) -> Round
    ensures { round_view result ≡ serve_all pick stay 1 (task_views S.Stream.meaning plan.now.tasks) state.now.tasks }
{
    let mut tasks = state.tasks;
    let mut ended = None;
    let mut may_choose = false;
    let mut late = None;
    for (i, place) in plan.tasks.as_slice().iter().enumerate() {
        let Some(task) = place else {
            break;
        };
        let number = i as u8 + 1;
        let s = serve(task, tasks[i], number == pick, stay);
        tasks[i] = s.state;
        ended = ended.or(
            s.response.map(|response| Ended {
                task: number,
                response,
            }),
        );
        may_choose |= s.may_choose;
        late = late.or(s.late.then_some(number));
    }
    Round {
        tasks,
        ended,
        may_choose,
        late,
    }
}
