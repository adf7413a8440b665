// The second scheduler: every arrival so far, the open jobs, and the slot that comes next.
ghost use Rattle.std.specs.Prelude.{◌≡◌, ◌≤◌, length, IfOk, None, vec_len};

use crate::falls::Falls;
use crate::order::{Name, Numbers, Open, pick};
use crate::shown::{Done, PeerOutcome, Shown};
use outcome::Cause;
use rules::Rule;
use std::alloc::{AllocError, Global};

// A task: its number from 1, its other numbers, and the slots of its arrivals.
#[derive(Clone, Drop)]
pub struct Task {
    pub(crate) number: u8,
    pub(crate) numbers: Numbers,
    pub(crate) arrivals: Vec<u32>,
}

// `ran` is the job that was picked in the slot before.
#[derive(Clone, Drop)]
pub struct Peer {
    rule: Rule,
    pub(crate) tasks: Vec<Task>,
    // At most eight, in the order of arrival, so they are searched.
    jobs: Vec<Open>,
    pub(crate) slot: u32,
    ran: Option<Name>,
}

// The tasks with an arrival, and what is left of the way's number.
#[derive(Drop)]
struct Came {
    tasks: Vec<u8>,
    rest: u32,
}

// What the picked job does, or that there is no such way.
#[derive(Clone, Copy)]
enum Turn {
    Void,
    Stays,
    Ends(Done),
}

impl Peer {
    // No slot has passed.
    pub(crate) fn new(heap: Global, rule: Rule, all: &[Numbers]) -> Result<Peer, AllocError>
        ensures begins { IfOk result (λ p. (p.slot ≡ 0) × (vec_len p.jobs ≡ 0) × (p.ran ≡ None)) }
        ensures all { IfOk result (λ p. vec_len p.tasks ≡ length all.now) }
    {
        let mut tasks = Vec::new(heap);
        for (i, numbers) in all.iter().enumerate() {
            tasks.push(Task {
                number: u8::try_from(i.saturating_add(1)).unwrap_or(u8::MAX),
                numbers: *numbers,
                arrivals: Vec::new(heap),
            })?;
        }
        Ok(Peer {
            rule,
            tasks,
            jobs: Vec::new(heap),
            slot: 0,
            ran: None,
        })
    }

    // How many ways the next slot has: twice as many for each stream that may choose.
    pub(crate) fn ways(&self) -> u32
        ensures some { 2 ≤ result }
    {
        let mut ways = 2u32;
        for task in self.tasks.iter() {
            if task.falls(self.slot) == Falls::May {
                ways = ways.saturating_mul(2);
            }
        }
        ways
    }

    // The work done on the task's open job and the slots since its arrival.
    pub(crate) fn work_and_age(&self, task: u8) -> Option<(u32, u32)> {
        self.jobs
            .iter()
            .find(|job| job.task == task)
            .map(|job| (job.worked, self.slot.saturating_sub(job.arrived)))
    }

    // The task that was picked in the slot before, if its job is still open.
    pub(crate) fn runner(&self) -> Option<u8> {
        self.jobs
            .iter()
            .find(|job| self.ran == Some(job.name()))
            .map(|job| job.task)
    }

    // The next slot, by the way of this number.
    pub(crate) fn slot(&self, heap: Global, way: u32) -> Result<PeerOutcome, AllocError> {
        let Came { tasks, rest } = self.arriving(heap, way)?;
        if rest > 1 {
            return Ok(PeerOutcome::Void);
        }
        let stay = rest == 1;
        match (self.overlap(&tasks), stay) {
            (None, _) => self.served(heap, tasks, stay),
            (Some(_), true) => Ok(PeerOutcome::Void),
            (Some(task), false) => Ok(PeerOutcome::Late {
                task,
                cause: Cause::Overlap,
                shown: Shown {
                    arrivals: tasks,
                    picked: None,
                    ended: None,
                },
            }),
        }
    }

    // Who has an arrival: a stream that may choose takes the lowest bit that is left of the way.
    fn arriving(&self, heap: Global, way: u32) -> Result<Came, AllocError> {
        let mut tasks = Vec::new(heap);
        let mut rest = way;
        for task in self.tasks.iter() {
            let falls = task.falls(self.slot);
            if falls == Falls::Must || falls == Falls::May && rest % 2 == 1 {
                tasks.push(task.number)?;
            }
            if falls == Falls::May {
                rest = rest / 2;
            }
        }
        Ok(Came { tasks, rest })
    }

    // The least of these tasks that has an open job.
    fn overlap(&self, tasks: &[u8]) -> Option<u8> {
        self.jobs
            .iter()
            .map(|job| job.task)
            .filter(|task| tasks.contains(task))
            .min()
    }

    // The rest of a slot in which these tasks get a job.
    fn served(
        &self,
        heap: Global,
        arrivals: Vec<u8>,
        stay: bool,
    ) -> Result<PeerOutcome, AllocError> {
        let mut peer = self.clone()?;
        peer.admit(&arrivals)?;
        let picked = pick(peer.rule, &peer.jobs, peer.ran);
        let ended = match peer.work(picked, stay)? {
            Turn::Void => return Ok(PeerOutcome::Void),
            Turn::Stays => None,
            Turn::Ends(done) => Some(done),
        };
        Ok(peer.closed(Shown {
            arrivals,
            picked,
            ended,
        }))
    }

    // An arrival in this slot, and an open job, for each of these tasks.
    fn admit(&mut self, tasks: &[u8]) -> Result<(), AllocError> {
        for task in self.tasks.iter_mut() {
            if tasks.contains(&task.number) {
                task.arrivals.push(self.slot)?;
                self.jobs.push(Open {
                    task: task.number,
                    numbers: task.numbers,
                    arrived: self.slot,
                    worked: 0,
                })?;
            }
        }
        Ok(())
    }

    // A slot of work on the open job of the picked task.
    fn work(&mut self, picked: Option<u8>, stay: bool) -> Result<Turn, AllocError> {
        let Some(mut job) = picked.and_then(|task| self.take(task)) else {
            self.ran = None;
            return Ok(if stay { Turn::Void } else { Turn::Stays });
        };
        job.worked = job.worked.saturating_add(1);
        self.ran = Some(job.name());
        let turn = job_turn(&job, stay, self.slot);
        if let Turn::Stays = turn {
            self.jobs.push(job)?;
        }
        Ok(turn)
    }

    // Takes the task's job out of the open ones.
    fn take(&mut self, task: u8) -> Option<Open> {
        let place = self.jobs.iter().position(|job| job.task == task)?;
        Some(self.jobs.remove(place))
    }

    // The slot is over: late if an open job is due.
    fn closed(mut self, shown: Shown) -> PeerOutcome {
        self.slot = self.slot.saturating_add(1);
        match self.overdue() {
            Some(task) => PeerOutcome::Late {
                task,
                cause: Cause::Deadline,
                shown,
            },
            None => PeerOutcome::Next { peer: self, shown },
        }
    }

    // The least task with an open job that was due before the next slot.
    fn overdue(&self) -> Option<u8> {
        self.jobs
            .iter()
            .filter(|job| job.arrived.saturating_add(u32::from(job.numbers.deadline)) <= self.slot)
            .map(|job| job.task)
            .min()
    }
}

impl Task {
    fn falls(&self, slot: u32) -> Falls {
        self.numbers.kind.falls(&self.arrivals, slot)
    }
}

// What a job does that has worked in this slot; a job stays below its best time, and ends at its worst.
fn job_turn(job: &Open, stay: bool, slot: u32) -> Turn {
    let must_stay = job.worked < u32::from(job.numbers.best);
    let must_end = job.worked >= u32::from(job.numbers.worst);
    if stay && (must_stay || must_end) {
        Turn::Void
    } else if stay || must_stay {
        Turn::Stays
    } else {
        Turn::Ends(Done {
            task: job.task,
            response: slot.saturating_add(1).saturating_sub(job.arrived),
        })
    }
}
