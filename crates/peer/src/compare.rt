// Runs of both schedulers side by side, compared slot by slot.
use crate::draw::Draw;
use crate::library::{Streams, plan_of, work_and_age};
use crate::order::{Numbers, RULES};
use crate::scheduler::Peer;
use crate::shown::{Done, Lates, PeerOutcome, Shown};
use dispatch::Dispatch;
use outcome::{Cause, Outcome};
use schedule::Schedule;
use slot::event::Event;
use slot::state::State;
use slot::{start, walk};
use std::alloc::Global;
use std::process::Abort;
use std::test::*;
use streams::Stream;

// How often each thing was seen: ways that are not void, void ones, late ones by cause, jobs that ended, and jobs that stayed
// by choice.
#[derive(Clone, Copy, Default)]
pub struct Tally {
    pub slots: u32,
    pub void: u32,
    pub late: Lates,
    pub ended: u32,
    pub stayed: u32,
}

// Both schedulers before a slot.
#[derive(Drop)]
pub struct Pair {
    pub state: State,
    pub peer: Peer,
}

// `quiet` is how many slots of 100 go on by way 0, where no stream has an arrival that it may leave out.
#[derive(Drop)]
pub struct Trial {
    pub heap: Global,
    pub draw: Draw,
    pub quiet: u32,
    pub tally: Tally,
}

impl Tally {
    // A slot that is not void.
    fn seen(&mut self, shown: &Shown, stay: bool) {
        self.slots = self.slots.saturating_add(1);
        if shown.ended.is_some() {
            self.ended = self.ended.saturating_add(1);
        }
        if stay {
            self.stayed = self.stayed.saturating_add(1);
        }
    }
}

impl Trial {
    pub(crate) fn new(heap: Global, last: u32, quiet: u32) -> Trial {
        Trial {
            heap,
            draw: Draw { last },
            quiet,
            tally: Tally::default(),
        }
    }

    // One way of a slot in both schedulers, and where it leads.
    pub(crate) fn compare<D: Dispatch>(
        &mut self,
        rt: &impl Abort,
        schedule: &Schedule<Streams, D>,
        pair: &Pair,
        way: u32,
    ) -> Result<Option<Pair>, Fail> {
        let stay = way >= pair.peer.ways() / 2;
        let event = walk::observe(&schedule.plan, &schedule.rule, &pair.state, way);
        let other = pair.peer.slot(self.heap, way)?;
        match walk::walk(&schedule.plan, &schedule.rule, &pair.state, way) {
            Outcome::Void => self.void(other),
            Outcome::Late { task, cause, ended } => {
                assert_eq!(rt; ended, event.ended, "ended");
                self.late(rt, task, cause, &event, other, stay)
            }
            Outcome::Next { state, ended } => {
                assert_eq!(rt; ended, event.ended, "ended");
                self.next(rt, state, &event, other, stay)
            }
        }
    }

    // The library says void.
    fn void(&mut self, other: PeerOutcome) -> Result<Option<Pair>, Fail> {
        let PeerOutcome::Void = other else {
            return Err(Fail::new("void in the library alone"));
        };
        self.tally.void = self.tally.void.saturating_add(1);
        Ok(None)
    }

    // The library says late.
    fn late(
        &mut self,
        rt: &impl Abort,
        task: u8,
        cause: Cause,
        event: &Event,
        other: PeerOutcome,
        stay: bool,
    ) -> Result<Option<Pair>, Fail> {
        let PeerOutcome::Late {
            task: named,
            cause: why,
            shown,
        } = other
        else {
            return Err(Fail::new("late in the library alone"));
        };
        assert_eq!(rt; task, named, "late task");
        assert_eq!(rt; cause, why, "cause");
        same_event(rt, event, &shown);
        self.tally.late.count(why);
        self.tally.seen(&shown, stay);
        Ok(None)
    }

    // The library goes on.
    fn next(
        &mut self,
        rt: &impl Abort,
        state: State,
        event: &Event,
        other: PeerOutcome,
        stay: bool,
    ) -> Result<Option<Pair>, Fail> {
        let PeerOutcome::Next { peer, shown } = other else {
            return Err(Fail::new("goes on in the library alone"));
        };
        same_event(rt, event, &shown);
        same_state(rt, &state, &peer);
        self.tally.seen(&shown, stay);
        Ok(Some(Pair { state, peer }))
    }

    // Some ways of a slot. The next slot is where one of them leads, if one leads on.
    fn step<D: Dispatch>(
        &mut self,
        rt: &impl Abort,
        schedule: &Schedule<Streams, D>,
        pair: &Pair,
    ) -> Result<Option<Pair>, Fail> {
        let ways = walk::ways(&schedule.plan, &pair.state);
        assert_eq!(rt; ways, pair.peer.ways(), "count of ways");
        let mut next = None;
        for i in 0..8 {
            let way = self.way(i, ways);
            if let Some(after) = self.compare(rt, schedule, pair, way)? {
                next = Some(after);
            }
        }
        Ok(next)
    }

    // The way of each try: by turns one whose job ends where it may, and any. The last is 0 as often as `quiet` asks.
    fn way(&mut self, i: u32, ways: u32) -> u32 {
        if i == 7 && self.draw.below(100) < self.quiet {
            0
        } else if i % 2 == 0 {
            self.draw.below(ways / 2)
        } else {
            self.draw.way(ways)
        }
    }

    // So many slots from the start, or fewer where none of the ways drawn leads on.
    fn run<D: Dispatch>(
        &mut self,
        rt: &impl Abort,
        schedule: &Schedule<Streams, D>,
        peer: Peer,
        slots: u32,
    ) -> Result<(), Fail> {
        let mut pair = Pair {
            state: start::start(&schedule.plan),
            peer,
        };
        for _ in 0..slots {
            let Some(after) = self.step(rt, schedule, &pair)? else {
                return Ok(());
            };
            pair = after;
        }
        Ok(())
    }

    // The plan of these tasks under each rule.
    pub(crate) fn all_rules(
        &mut self,
        rt: &impl Abort,
        tasks: &[Numbers],
        slots: u32,
    ) -> Result<(), Fail> {
        let heap = self.heap;
        for rule in RULES.iter() {
            let schedule = Schedule {
                plan: plan_of(tasks)?,
                rule: *rule,
            };
            let peer = Peer::new(heap, *rule, tasks)?;
            self.run(rt, &schedule, peer, slots)?;
        }
        Ok(())
    }
}

// What a slot shows is the same in both. The library gives 'no task' the number 0, as the rules have it.
fn same_event(rt: &impl Abort, event: &Event, shown: &Shown) {
    assert_eq!(rt; event.picked, shown.picked.unwrap_or(0), "picked");
    assert_eq!(rt; event.ended.map(Done::from), shown.ended, "ended");
    for (task, came) in (1u8..).zip(event.arrivals.iter()) {
        assert_eq!(rt; *came, shown.arrivals.contains(&task), "arrival of {task}");
    }
}

// The jobs and the last runner are the same in both. Here too 'no task' is 0 in the library.
fn same_state(rt: &impl Abort, state: &State, peer: &Peer) {
    assert_eq!(rt; state.last, peer.runner().unwrap_or(0), "last runner");
    for (task, mine) in (1u8..).zip(state.tasks.iter()) {
        assert_eq!(rt;
            mine.job.map(work_and_age),
            peer.work_and_age(task),
            "job of {task}"
        );
    }
}
