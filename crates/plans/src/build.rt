// Making plans.
ghost use Rattle.std.specs.Prelude.{◌≡◌, ◌+◌, ◌≤◌, [], length, is_some, Some, None, Ok, Err, MatchResult, OnErr};
ghost use Rattle.std.specs.List.{prefix_len};
ghost use Rattle.plans.specs.Tasks.{task_view, task_views};
ghost use Rattle.plans.specs.Fields.{times_fault};
ghost use Rattle.plans.specs.Adding.{fault_at, read_numbers, Added};

use crate::field::Field;
use crate::limits::{DEADLINE_LIMIT, WORST_LIMIT};
use crate::plan::{Plan, Task, Times};
use refusals::{Fault, Refusal};
use std::array;
use streams::Stream;

impl Times {
    // These numbers, or the first of them that is out of bounds.
    pub fn new(priority: u8, best: u16, worst: u16, deadline: u16) -> Result<Times, Field>
        ensures { MatchResult result (λ t. (times_fault priority best worst deadline ≡ None) × (t.priority ≡ priority) × (t.best ≡ best) × (t.worst ≡ worst) × (t.deadline ≡ deadline)) (λ f. times_fault priority best worst deadline ≡ Some f) }
    {
        if priority < 1 {
            Err(Field::Priority)
        } else if best < 1 {
            Err(Field::Best)
        } else if worst < best || worst > WORST_LIMIT {
            Err(Field::Worst)
        } else if deadline < worst || deadline > DEADLINE_LIMIT {
            Err(Field::Deadline)
        } else {
            Ok(Times {
                priority,
                best,
                worst,
                deadline,
            })
        }
    }
}

impl<S: Stream> Plan<S> {
    // A plan with no task.
    pub fn new() -> Plan<S>
        ensures { task_views S.Stream.meaning result.tasks ≡ [] }
    {
        Plan {
            tasks: array::from_fn(|_| None),
        }
    }

    // How many tasks it has.
    #[tactic(auto, using(crate::proofs::Views::leading))]
    pub fn count(&self) -> usize
        ensures value { result ≡ length (task_views S.Stream.meaning self.now.tasks) }
        ensures few { result ≤ 8 }
    {
        taken(&self.tasks)
    }
}

// How many places are taken, up to the first free one.
fn taken<T>(places: &[Option<T>]) -> usize
    ensures value { result ≡ prefix_len is_some places.now }
    ensures few { result ≤ length places.now }
{
    places.iter().take_while(|place| place.is_some()).count()
}

impl<S: Stream + Drop> Plan<S> {
    // A task more, unless the plan has eight.
    pub(crate) fn put(&mut self, task: Task<S>) -> Result<(), Fault>
        ensures added { Added (task_views S.Stream.meaning self.old.tasks) (task_views S.Stream.meaning self.new.tasks) (Ok (task_view S.Stream.meaning task)) result }
        ensures same { OnErr result (self.new ≡ self.old) }
    {
        let n = self.count();
        if n >= 8 {
            return Err(Refusal::PlanFull.at(n as u32 + 1, 0));
        }
        self.tasks[n] = Some(task);
        Ok(())
    }

    // A task more, over any stream, by its numbers: refused with the first number out of bounds, or if the plan has eight.
    pub fn add_task(
        &mut self,
        stream: S,
        priority: u8,
        best: u16,
        worst: u16,
        deadline: u16,
    ) -> Result<(), Fault>
        ensures added { Added (task_views S.Stream.meaning self.old.tasks) (task_views S.Stream.meaning self.new.tasks) (read_numbers (length (task_views S.Stream.meaning self.old.tasks) + 1) (S.Stream.meaning stream) priority best worst deadline) result }
        ensures same { OnErr result (self.new ≡ self.old) }
    {
        let number = self.count() as u32 + 1;
        let times = Times::new(priority, best, worst, deadline).map_err(
            |field| Refusal::TaskBounds.at(number, field.offset()),
        )?;
        self.put(Task { stream, times })
    }
}
