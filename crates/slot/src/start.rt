// The start state.
ghost use Rattle.std.specs.Prelude.{◌≡◌};
ghost use Rattle.plans.specs.Tasks.{task_views};
ghost use Rattle.slot.specs.Slot.{state_view, start_state};

use crate::state::{State, TaskState};
use plans::plan::Plan;
use streams::Stream;

// The streams at their first positions, no jobs, and no last runner.
pub fn start<S: Stream>(plan: &Plan<S>) -> State
    ensures { state_view result ≡ start_state (task_views S.Stream.meaning plan.now.tasks) }
{
    let mut tasks = [TaskState::default(); 8];
    for (i, place) in plan.tasks.as_slice().iter().enumerate() {
        let Some(task) = place else {
            break;
        };
        tasks[i] = TaskState {
            position: task.stream.first(),
            job: None,
        };
    }
    State { tasks, last: 0 }
}
