// Plans with a known run, in both schedulers.
use crate::compare::{Pair, Trial};
use crate::falls::Kind;
use crate::library::{Streams, plan_of};
use crate::order::Numbers;
use crate::scheduler::Peer;
use crate::shown::{Done, PeerOutcome};
use dispatch::priority::Priority;
use outcome::Cause;
use rules::Rule;
use schedule::Schedule;
use slot::start;
use std::process::Abort;
use std::test::*;

fn periodic(period: u16, priority: u8, best: u16, worst: u16, deadline: u16) -> Numbers {
    Numbers {
        kind: Kind::Periodic {
            period,
            jitter: 0,
            offset: 0,
        },
        priority,
        best,
        worst,
        deadline,
    }
}

fn job(task: u8, response: u32) -> Option<Done> {
    Some(Done { task, response })
}

fn by_priority(tasks: &[Numbers]) -> Result<Schedule<Streams, Priority>, Fail> {
    Ok(Schedule {
        plan: plan_of(tasks)?,
        rule: Priority,
    })
}

// The start of both schedulers, by priority.
fn begin(trial: &Trial, tasks: &[Numbers]) -> Result<Pair, Fail> {
    Ok(Pair {
        state: start::start(&plan_of(tasks)?),
        peer: Peer::new(trial.heap, Rule::Priority, tasks)?,
    })
}

// Walks the ways in both, where slots end in these jobs.
fn walked(
    rt: &impl Abort,
    trial: &mut Trial,
    tasks: &[Numbers],
    slots: &[(u32, Option<Done>)],
) -> Result<Pair, Fail> {
    let schedule = by_priority(tasks)?;
    let mut pair = begin(trial, tasks)?;
    for (way, done) in slots {
        if let PeerOutcome::Next { shown, .. } = pair.peer.slot(trial.heap, *way)? {
            assert_eq!(rt; shown.ended, *done);
        }
        let Some(after) = trial.compare(rt, &schedule, &pair, *way)? else {
            return Err(Fail::new("does not go on"));
        };
        pair = after;
    }
    Ok(pair)
}

// Task 2 ends in its best time, and then in its worst, with task 1 between.
#[test]
fn responses_of_two_and_four(rt: HostRuntime) -> Result<(), Fail> {
    let mut trial = Trial::new(rt.alloc(), 1, 0);
    let tasks = [periodic(2, 2, 1, 1, 2), periodic(4, 1, 1, 2, 4)];
    let slots = [
        (0, job(1, 1)),
        (0, job(2, 2)),
        (0, job(1, 1)),
        (0, None),
        (0, job(1, 1)),
        (1, None),
        (0, job(1, 1)),
        (0, job(2, 4)),
    ];
    walked(&rt, &mut trial, &tasks, &slots)?;
    assert_eq!(rt; trial.tally.stayed, 1);
    Ok(())
}

// Task 1 ends in the slot in which task 2 misses its deadline.
#[test]
fn late_with_an_end(rt: HostRuntime) -> Result<(), Fail> {
    let mut trial = Trial::new(rt.alloc(), 1, 0);
    let tasks = [periodic(8, 2, 2, 2, 2), periodic(8, 1, 1, 1, 2)];
    let pair = walked(&rt, &mut trial, &tasks, &[(0, None)])?;
    assert!(rt;
        trial
            .compare(&rt, &by_priority(&tasks)?, &pair, 0)?
            .is_none()
    );
    let PeerOutcome::Late { task, cause, shown } = pair.peer.slot(trial.heap, 0)? else {
        return Err(Fail::new("not late"));
    };
    assert_eq!(rt; (task, cause), (2, Cause::Deadline));
    assert_eq!(rt; shown.ended, job(1, 2));
    Ok(())
}

// A second arrival before the first job ends, in a slot with no pick.
#[test]
fn late_by_an_overlap(rt: HostRuntime) -> Result<(), Fail> {
    let mut trial = Trial::new(rt.alloc(), 1, 0);
    let tasks = [periodic(9, 1, 1, 1, 9), periodic(1, 2, 2, 2, 3)];
    let pair = walked(&rt, &mut trial, &tasks, &[(0, None)])?;
    assert!(rt;
        trial
            .compare(&rt, &by_priority(&tasks)?, &pair, 0)?
            .is_none()
    );
    let PeerOutcome::Late { task, cause, shown } = pair.peer.slot(trial.heap, 0)? else {
        return Err(Fail::new("not late"));
    };
    assert_eq!(rt; (task, cause), (2, Cause::Overlap));
    assert_eq!(rt; shown.picked, None);
    Ok(())
}
