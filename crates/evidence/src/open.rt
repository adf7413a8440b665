// Opening a table for a plan.
ghost use Rattle.plans.specs.Tasks.{task_views};
ghost use Rattle.slot.specs.Slot.{state_view};
ghost use Rattle.schedule.specs.PlanSystem.{plan_system};
ghost use Rattle.evidence.specs.Opening.{PlanOpened};

use dispatch::Dispatch;
use exploration::Row;
use refusals::{Fault, Refusal};
use schedule::Schedule;
use slot::state::State;
use streams::Stream;
use table::table::Table;

// A new table for a plan under a dispatch rule, in rows that the caller lends. Its contract has the law of kept tables, whole.
pub fn open<S: Stream, D: Dispatch>(
    schedule: &Schedule<S, D>,
    rows: &mut [Row<State>],
) -> Result<Table, Fault>
    ensures { PlanOpened state_view (plan_system (task_views S.Stream.meaning schedule.now.plan.tasks) (D.Dispatch.picks schedule.now.rule)) result rows.old rows.new }
{
    if schedule.plan.count() == 0 {
        return Err(Refusal::PlanEmpty.into());
    }
    Table::open(schedule, rows)
}
