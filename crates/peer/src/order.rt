// Which open job runs: the least in an order that the rule makes.
ghost use Rattle.std.specs.Prelude.{◌≡◌, length, is_some, nat_lt};

use crate::falls::Kind;
use rules::Rule;

// Every rule.
pub const RULES: [Rule; 4] = [
    Rule::Priority,
    Rule::Waiting,
    Rule::KeepingPriority,
    Rule::KeepingWaiting,
];

// A task's numbers.
#[derive(Clone, Copy)]
pub struct Numbers {
    pub kind: Kind,
    pub priority: u8,
    pub best: u16,
    pub worst: u16,
    pub deadline: u16,
}

// A job that has not ended: its task, the slot of its arrival, and the slots of work done.
#[derive(Clone, Copy)]
pub struct Open {
    pub task: u8,
    pub numbers: Numbers,
    pub arrived: u32,
    pub worked: u32,
}

// A job by its task and the slot of its arrival.
#[derive(Clone, Copy, PartialEq, Eq)]
pub struct Name {
    pub task: u8,
    pub arrived: u32,
}

// A job's place in the order. The first field that differs decides, and the lesser runs first.
#[derive(Clone, Copy, PartialEq, Eq, PartialOrd, Ord)]
struct Place {
    changes: bool,
    key: u32,
    task: u8,
}

impl Open {
    pub(crate) fn name(&self) -> Name
        ensures task { result.task ≡ self.now.task }
        ensures arrived { result.arrived ≡ self.now.arrived }
    {
        Name {
            task: self.task,
            arrived: self.arrived,
        }
    }

    fn place(&self, rule: Rule, ran: Option<Name>) -> Place {
        Place {
            changes: keeps(rule) && ran != Some(self.name()),
            key: key(rule, self),
            task: self.task,
        }
    }
}

// Whether a job that ran in the slot before goes on.
fn keeps(rule: Rule) -> bool {
    matches!(rule, Rule::KeepingPriority | Rule::KeepingWaiting)
}

// The greater priority, or the earlier arrival, has the lesser key.
fn key(rule: Rule, job: &Open) -> u32 {
    match rule {
        Rule::Priority | Rule::KeepingPriority => {
            255u32.saturating_sub(u32::from(job.numbers.priority))
        }
        Rule::Waiting | Rule::KeepingWaiting => job.arrived,
    }
}

// The task of the job that runs, where `ran` is the job that was picked in the slot before. One runs wherever one is open.
pub(crate) fn pick(rule: Rule, jobs: &[Open], ran: Option<Name>) -> Option<u8>
    ensures runs { is_some result ≡ nat_lt 0 (length jobs.now) }
{
    let first = jobs.iter().map(|job| job.place(rule, ran)).min();
    first.map(|place| place.task)
}
