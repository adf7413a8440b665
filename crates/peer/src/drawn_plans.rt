// Plans that are drawn, with small numbers and with large ones, and one at the limits.
use crate::compare::{Tally, Trial};
use crate::falls::Kind;
use crate::order::Numbers;
use std::process::Abort;
use std::test::*;

// So many tasks, with about as many slots between arrivals as the tasks ask for, times the slack.
fn small_plan(trial: &mut Trial, count: u16, slack: u16) -> Result<Vec<Numbers>, Fail> {
    let span = count.saturating_mul(slack);
    let mut tasks = Vec::new(trial.heap);
    for _ in 0..count {
        tasks.push(trial.draw.task(span, span, 3, span.saturating_add(4)))?;
    }
    Ok(tasks)
}

// So many tasks, with large numbers.
fn large_plan(trial: &mut Trial, count: u16) -> Result<Vec<Numbers>, Fail> {
    let mut tasks = Vec::new(trial.heap);
    for _ in 0..count {
        let span = trial.draw.between(100, 1300);
        tasks.push(trial.draw.task(span, 4000, 300, 1023))?;
    }
    Ok(tasks)
}

// That each thing was seen at least so often.
fn seen_often(rt: &impl Abort, tally: Tally, times: u32) {
    assert!(rt; tally.void >= times, "void");
    assert!(rt; tally.late.overlap >= times, "late by an overlap");
    assert!(rt; tally.late.deadline >= times, "late by a deadline");
    assert!(rt; tally.ended >= times, "ended");
    assert!(rt; tally.stayed >= times, "stayed by choice");
}

fn show(rt: &HostRuntime, tally: Tally) -> Result<(), Fail> {
    let Tally {
        slots,
        void,
        late,
        ended,
        stayed,
    } = tally;
    println!(rt; "slots {slots}, void {void}, {late}, ended {ended}, stayed {stayed}")?;
    Ok(())
}

#[test]
fn small_numbers(rt: HostRuntime) -> Result<(), Fail> {
    let mut trial = Trial::new(rt.alloc(), 2_463_534_242, 20);
    for i in 0..400u16 {
        let tasks = small_plan(&mut trial, i % 8 + 1, i / 8 % 5 + 1)?;
        trial.all_rules(&rt, &tasks, 60)?;
    }
    show(&rt, trial.tally)?;
    seen_often(&rt, trial.tally, 1000);
    Ok(())
}

#[test]
fn large_numbers(rt: HostRuntime) -> Result<(), Fail> {
    let mut trial = Trial::new(rt.alloc(), 88_675_123, 97);
    for i in 0..24u16 {
        let tasks = large_plan(&mut trial, i % 8 + 1)?;
        trial.all_rules(&rt, &tasks, 9000)?;
    }
    show(&rt, trial.tally)?;
    seen_often(&rt, trial.tally, 100);
    Ok(())
}

// A period, jitter, gaps, offset, times and deadline that are as great as may be. Each slot shows five ways or more.
#[test]
fn limits(rt: HostRuntime) -> Result<(), Fail> {
    let kind = Kind::Periodic {
        period: 4000,
        jitter: 3999,
        offset: 4000,
    };
    let gaps = Kind::Sporadic {
        least: 4000,
        greatest: 4000,
        offset: 0,
    };
    let tasks = [
        Numbers {
            kind,
            priority: 255,
            best: 1000,
            worst: 1000,
            deadline: 1023,
        },
        Numbers {
            kind: gaps,
            priority: 1,
            best: 1,
            worst: 1000,
            deadline: 1023,
        },
    ];
    let mut trial = Trial::new(rt.alloc(), 521_288_629, 100);
    trial.all_rules(&rt, &tasks, 13_000)?;
    assert!(rt; trial.tally.slots >= 260_000, "a run stopped early");
    Ok(())
}
