// From the bytes of a plan and of evidence to text.
ghost use Rattle.std.specs.Prelude.{◌≡◌, ◌+◌, ◌<◌, ◌≤◌, length, MatchResult, IfOk};
ghost use Rattle.dispatch.specs.Picks.{by_priority};
ghost use Rattle.plans.specs.Tasks.{task_views};
ghost use Rattle.evidence.specs.Opening.{open_plan};
ghost use Rattle.schedule.specs.PlanSystem.{plan_system};
ghost use Rattle.table.specs.View.{table_of};
ghost use Rattle.listing.specs.Lines.{table_lines};
ghost use Rattle.listing.specs.Put.{room};
ghost use Rattle.listing.specs.Ending.{PutsBut};
ghost use Rattle.listing.specs.Listing.{opening_lines, listing_of, PlanRests, ListingLaw, Writes, Lists};

use crate::finish::finish;
use crate::page::Page;
use crate::part::{Halt, Part};
use dispatch::Dispatch;
use dispatch::priority::Priority;
use evidence::open::open;
use plans::plan::Plan;
use refusals::{Fault, Refusal};
use schedule::Schedule;
use streams::Stream;
use table::system::start_row;
use table::table::Table;

// Opens a table of 256 rows, brings it to its end, and puts what it shows. A refusal that ended the work is the answer.
fn put_schedule<S: Stream, D: Dispatch>(
    page: &mut Page,
    schedule: &Schedule<S, D>,
    evidence: &[u8],
) -> Result<(), Halt>
    requires { 176 ≤ room page.old }
    ensures put { PutsBut (opening_lines (D.Dispatch.picks schedule.now.rule) 256 evidence.now (task_views S.Stream.meaning schedule.now.plan.tasks) (open_plan (plan_system (task_views S.Stream.meaning schedule.now.plan.tasks) (D.Dispatch.picks schedule.now.rule)) 256)) result page.old page.new }
    ensures within { room page.old ≤ room page.new + 176 }
    ensures law { PlanRests (D.Dispatch.picks schedule.now.rule) 256 evidence.now (task_views S.Stream.meaning schedule.now.plan.tasks) }
{
    let mut rows = [start_row(schedule); 256];
    let mut table = open(schedule, &mut rows).map_err(|fault| Part::Plan.halts(fault))?;
    let ended = finish(&mut table, schedule, &mut rows, evidence);
    page.put_table(&table);
    ended
}

// Reads a plan, and puts what its schedule under the rule priority shows. A refusal that ended the work is the answer.
fn put_plan(page: &mut Page, plan: &[u8], evidence: &[u8]) -> Result<(), Halt>
    requires { 176 ≤ room page.old }
    ensures put { PutsBut (listing_of by_priority 256 plan.now evidence.now) result page.old page.new }
    ensures within { room page.old ≤ room page.new + 176 }
    ensures law { ListingLaw by_priority 256 plan.now evidence.now }
{
    let plan = Plan::from_bytes(plan).map_err(|fault| Part::Plan.halts(fault))?;
    let schedule = Schedule {
        plan,
        rule: Priority,
    };
    put_schedule(page, &schedule, evidence)
}

// A place of under 512 bytes is refused.
fn check_place(place: &[u8]) -> Result<(), Fault>
    ensures { MatchResult result (λ _. 512 ≤ length place.now) (λ f. (length place.now < 512) × (f ≡ record { refusal = Refusal.Length; at = (0, 0) })) }
{
    if place.len() < 512 {
        return Err(Refusal::Length.into());
    }
    Ok(())
}

// The listing of a plan and of evidence, both as bytes, in 256 rows under the rule priority: adds all records, opens, takes all evidence,
// and steps until the stage is not walking. Writes it into the first bytes of the place, and answers its length.
// A length, and no slice: C gets numbers back.
pub fn listing(plan: &[u8], evidence: &[u8], place: &mut [u8]) -> Result<usize, Fault>
    ensures value { Lists by_priority 256 plan.now evidence.now result place.old place.new }
    ensures short { IfOk result (λ n. n ≤ 212) }
{
    check_place(place)?;
    let mut page = Page::new(place);
    let ended = put_plan(&mut page, plan, evidence);
    page.put_ending(ended);
    Ok(page.len())
}

// The lines of a table, into the first bytes of the place; answers their length, as `listing` does.
pub fn lines(table: &Table, place: &mut [u8]) -> Result<usize, Fault>
    ensures value { Writes (table_lines (table_of table.now.numbers)) result place.old place.new }
    ensures short { IfOk result (λ n. n ≤ 176) }
{
    check_place(place)?; // as for a listing
    let mut page = Page::new(place);
    page.put_table(table);
    Ok(page.len())
}
