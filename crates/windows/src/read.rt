// Reading the response window of a task off a table that is kept for a plan.
ghost use Rattle.std.specs.Prelude.{◌≡◌};
ghost use Rattle.plans.specs.Tasks.{task_views};
ghost use Rattle.windows.specs.SameRuns.{SameRuns};
ghost use Rattle.windows.specs.Reading.{both_times, window_at, window_read, WindowsKept, SaysKept};

use crate::window::Window;
use dispatch::Dispatch;
use evidence::read;
use exploration::{Row, Stage, Times};
use refusals::Fault;
use schedule::Schedule;
use slot::state::State;
use streams::Stream;
use table::table::Table;

// Both times of a task, if both are shown.
fn both(times: Times) -> Option<Window>
    ensures { result ≡ both_times times.least times.greatest }
{
    let both = times.least.zip(times.greatest);
    both.map(|(least, greatest)| Window {
        least: least.response,
        greatest: greatest.response,
    })
}

// Only a complete table tells a window.
fn window_at(stage: Stage, times: Times) -> Option<Window>
    ensures { result ≡ window_at stage times }
{
    match stage {
        Stage::Complete => both(times),
        _ => None,
    }
}

// The window of a task, numbered from 1: none unless the table is complete and shows times for it. A task that the table was not
// opened with is refused.
// Table, schedule and rows go in one by one, since rows are lent to each call.
pub fn window<S: Stream, D: Dispatch>(
    table: &Table,
    schedule: &Schedule<S, D>,
    rows: &[Row<State>],
    task: u8,
) -> Result<Option<Window>, Fault>
    ensures value { result ≡ window_read table.now.numbers task }
    ensures says { SaysKept (task_views S.Stream.meaning schedule.now.plan.tasks) (D.Dispatch.picks schedule.now.rule) table.now.numbers rows.now task result }
    ensures law { WindowsKept (task_views S.Stream.meaning schedule.now.plan.tasks) (D.Dispatch.picks schedule.now.rule) table.now.numbers rows.now }
    ensures runs { SameRuns (task_views S.Stream.meaning schedule.now.plan.tasks) (D.Dispatch.picks schedule.now.rule) }
{
    let stage = table.numbers().stage;
    read::times(table, schedule, rows, task).map(|times| window_at(stage, times))
}
