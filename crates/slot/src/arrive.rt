// The arrivals of a slot.
ghost use Rattle.std.specs.Prelude.{◌≡◌, ◌≤◌};
ghost use Rattle.plans.specs.Tasks.{task_view, task_views};
ghost use Rattle.slot.specs.Arrivals.{choices, release_of, arrives as arriving, job_after as job_then, overlaps as overlapped, come as coming, arrived, arrivals_in, overlapping};

use crate::state::{Job, State, TaskState};
use plans::plan::{Plan, Task};
use streams::Stream;

// What a stream's answer brings to its task: nothing, a new job, or an arrival that overlaps a job that stands.
#[derive(Clone, Copy)]
pub enum Release {
    Quiet,
    NewJob,
    Overlapping,
}

impl Release {
    fn new(arrives: bool, job: Option<Job>) -> Release
        ensures { result ≡ release_of arrives job }
    {
        match (arrives, job) {
            (false, _) => Release::Quiet,
            (true, None) => Release::NewJob,
            (true, Some(_job)) => Release::Overlapping,
        }
    }

    fn arrives(self) -> bool
        ensures { result ≡ arriving self }
    {
        !matches!(self, Release::Quiet)
    }

    fn overlaps(self) -> bool
        ensures { result ≡ overlapped self }
    {
        matches!(self, Release::Overlapping)
    }

    // The task's job once this has come.
    fn job_after(self, job: Option<Job>) -> Option<Job>
        ensures { result ≡ job_then self job }
    {
        match self {
            Release::NewJob => Some(Job { work: 0, age: 0 }),
            Release::Quiet | Release::Overlapping => job,
        }
    }
}

// One task's arrival: what it brings, how the task then stands, and what is left of the number of the streams' ways.
#[derive(Clone, Copy)]
pub struct Arrival {
    pub release: Release,
    pub state: TaskState,
    pub left: u32,
}

// The arrivals of all tasks: who has one, the state then, and the first task whose arrival overlaps.
#[derive(Clone, Copy)]
pub struct Arrivals {
    pub arrivals: [bool; 8],
    pub state: State,
    pub overlap: Option<u8>,
}

// How many ways the streams have together.
pub fn stream_ways<S: Stream>(plan: &Plan<S>, state: &State) -> u32
    ensures value { result ≡ choices (task_views S.Stream.meaning plan.now.tasks) state.now.tasks }
    ensures some { 1 ≤ result }
    ensures few { result ≤ 65536 }
{
    let mut all: u32 = 1;
    // As a slice, here and in the other loops over places: of an array of tasks of any stream no proof knows that its bytes fit.
    for (i, place) in plan.tasks.as_slice().iter().enumerate() {
        let Some(task) = place else {
            break;
        };
        all *= u32::from(task.stream.ways(state.tasks[i].position));
    }
    all
}

// One stream takes its way.
fn come<S: Stream>(task: &Task<S>, state: TaskState, left: u32) -> Arrival
    ensures { result ≡ coming (task_view S.Stream.meaning task.now) state left }
{
    let ways = u32::from(task.stream.ways(state.position));
    let (arrives, position) = task.stream.answer(state.position, (left % ways) as u8);
    let release = Release::new(arrives, state.job);
    Arrival {
        release,
        state: TaskState {
            position,
            job: release.job_after(state.job),
        },
        left: left / ways,
    }
}

// The streams take the ways of a mixed number.
pub fn arrive<S: Stream>(plan: &Plan<S>, state: &State, choice: u32) -> Arrivals
    ensures arrivals { result.arrivals ≡ arrivals_in (task_views S.Stream.meaning plan.now.tasks) state.now.tasks choice }
    ensures tasks { result.state.tasks ≡ arrived (task_views S.Stream.meaning plan.now.tasks) state.now.tasks choice }
    ensures last { result.state.last ≡ state.now.last }
    ensures overlap { result.overlap ≡ overlapping 1 (task_views S.Stream.meaning plan.now.tasks) state.now.tasks choice }
{
    let mut arrivals = [false; 8];
    let mut tasks = state.tasks;
    let mut overlap = None;
    let mut left = choice;
    for (i, place) in plan.tasks.as_slice().iter().enumerate() {
        let Some(task) = place else {
            break;
        };
        let a = come(task, tasks[i], left);
        arrivals[i] = a.release.arrives();
        tasks[i] = a.state;
        overlap = overlap.or(a.release.overlaps().then_some(i as u8 + 1));
        left = a.left;
    }
    Arrivals {
        arrivals,
        state: State {
            tasks,
            last: state.last,
        },
        overlap,
    }
}
