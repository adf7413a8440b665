// Plan records: what is accepted, and each refusal with its places.
use crate::sample;
use plans::plan::Plan;
use plans::record::Kind;
use refusals::Refusal;
use std::test::Fail;
use streams::either::Either;
use streams::periodic::Periodic;
use streams::sporadic::Sporadic;

// Kind P, priority 1, best 1, worst 2, deadline 3, offset 0, period 4, jitter 3.
const SOUND: [u8; 24] = [
    b'P', 1, 1, 0, 2, 0, 3, 0, 0, 0, 4, 0, 3, 0, 0, 0, 0, 0, 0, 0, 0, 0, 0, 0,
];

// Two such records.
const TWO: [u8; 48] = [
    80, 1, 1, 0, 2, 0, 3, 0, 0, 0, 4, 0, 3, 0, 0, 0, 0, 0, 0, 0, 0, 0, 0, 0, 80, 1, 1, 0, 2, 0, 3,
    0, 0, 0, 4, 0, 3, 0, 0, 0, 0, 0, 0, 0, 0, 0, 0, 0,
];

// The number and the places that a record is refused with, or none, in a plan of no task.
fn refused(record: &[u8]) -> Option<(u8, u32, u32)> {
    let mut plan: Plan<Kind> = Plan::new();
    sample::refused(plan.add_record(record))
}

// The sound record with other bytes at some offsets.
fn with(changes: &[(usize, u8)]) -> [u8; 24] {
    let mut record = SOUND;
    for (at, byte) in changes {
        if let Some(place) = record.get_mut(*at) {
            *place = *byte;
        }
    }
    record
}

#[test]
fn lengths_and_letters(rt: HostRuntime) {
    assert_eq!(rt; refused(&SOUND), None);
    assert_eq!(rt; refused(&SOUND[0..23]), Some((1, 1, 0)));
    assert_eq!(rt; refused(&[]), Some((1, 1, 0)));
    assert_eq!(rt; refused(&with(&[(0, b'S')])), Some((4, 1, 12)));
    assert_eq!(rt; refused(&with(&[(0, b'p')])), Some((2, 1, 0)));
    assert_eq!(rt; refused(&with(&[(0, b'V'), (1, 0)])), Some((2, 1, 0)));
}

#[test]
fn task_numbers(rt: HostRuntime) {
    assert_eq!(rt; refused(&with(&[(1, 0), (2, 0)])), Some((3, 1, 1)));
    assert_eq!(rt; refused(&with(&[(2, 0), (4, 0)])), Some((3, 1, 2)));
    assert_eq!(rt; refused(&with(&[(4, 0), (6, 0)])), Some((3, 1, 4)));
    // worst 1,001 = 3 * 256 + 233, deadline 1,023
    let mut record = with(&[(4, 233), (5, 3)]);
    record[6] = 255;
    record[7] = 3;
    assert_eq!(rt; refused(&record), Some((3, 1, 4)));
    record[4] = 232;
    assert_eq!(rt; refused(&record), None);
    record[6] = 0;
    record[7] = 4;
    assert_eq!(rt; refused(&record), Some((3, 1, 6)));
    assert_eq!(rt; refused(&with(&[(6, 1), (8, 255)])), Some((3, 1, 6)));
}

#[test]
fn stream_numbers(rt: HostRuntime) {
    // offset 4,000 = 15 * 256 + 160
    assert_eq!(rt; refused(&with(&[(8, 160), (9, 15)])), None);
    assert_eq!(rt; refused(&with(&[(8, 161), (9, 15)])), Some((4, 1, 8)));
    assert_eq!(rt; refused(&with(&[(10, 0)])), Some((4, 1, 10)));
    assert_eq!(rt; refused(&with(&[(10, 161), (11, 15)])), Some((4, 1, 10)));
    assert_eq!(rt; refused(&with(&[(12, 4), (14, 1)])), Some((4, 1, 12)));
    let mut sporadic = with(&[(0, b'S'), (12, 4)]);
    assert_eq!(rt; refused(&sporadic), None);
    sporadic[10] = 0;
    assert_eq!(rt; refused(&sporadic), Some((4, 1, 10)));
}

#[test]
fn zero_bytes(rt: HostRuntime) {
    assert_eq!(rt; refused(&with(&[(14, 1), (23, 1)])), Some((5, 1, 14)));
    assert_eq!(rt; refused(&with(&[(23, 1), (20, 9)])), Some((5, 1, 20)));
    assert_eq!(rt; refused(&with(&[(23, 255)])), Some((5, 1, 23)));
}

// A plan of eight tasks refuses a ninth, whose own faults come first; a refusal leaves the plan as it was.
#[test]
fn nine_tasks(rt: HostRuntime) -> Result<(), Fail> {
    let mut plan: Plan<Kind> = Plan::new();
    for _ in 0..8 {
        plan.add_record(&SOUND)?;
    }
    assert_eq!(rt; plan.count(), 8);
    let Err(full) = plan.add_record(&SOUND) else {
        return Err(Fail::new("a ninth task"));
    };
    assert_eq!(rt; (full.refusal.number(), full.at), (6, (9, 0)));
    let Err(bad) = plan.add_record(&with(&[(2, 0)])) else {
        return Err(Fail::new("a ninth task with a fault"));
    };
    assert_eq!(rt; (bad.refusal.number(), bad.at), (3, (9, 2)));
    assert_eq!(rt; plan.count(), 8);
    Ok(())
}

// Tasks over streams of any kind, by their numbers.
#[test]
fn by_numbers(rt: HostRuntime) -> Result<(), Fail> {
    let mut plan = Plan::new();
    let Ok(meter) = Sporadic::new(3, 5, 0) else {
        return Err(Fail::new("gaps 3 to 5"));
    };
    let Ok(clock) = Periodic::new(4, 0, 1) else {
        return Err(Fail::new("period 4"));
    };
    plan.add_task(Either::Left(meter), 255, 1, 1, 1)?;
    plan.add_task(Either::Right(Either::Left(clock)), 1, 1000, 1000, 1023)?;
    let other: Either<Sporadic, Either<Periodic, Sporadic>> = Either::Right(Either::Right(meter));
    assert_eq!(rt;
        plan.add_task(other, 0, 1, 1, 1),
        Err(Refusal::TaskBounds.at(3, 1))
    );
    assert_eq!(rt;
        plan.add_task(other, 1, 1, 1, 1024),
        Err(Refusal::TaskBounds.at(3, 6))
    );
    assert_eq!(rt; plan.count(), 2);
    Ok(())
}

// Bytes are cut into records; a shorter rest is the last record.
#[test]
fn from_bytes(rt: HostRuntime) -> Result<(), Fail> {
    let Ok(empty) = Plan::from_bytes(&[]) else {
        return Err(Fail::new("no bytes"));
    };
    assert_eq!(rt; empty.count(), 0);
    let Ok(plan) = Plan::from_bytes(&TWO) else {
        return Err(Fail::new("two records"));
    };
    assert_eq!(rt; plan.count(), 2);
    let Err(fault) = Plan::from_bytes(&TWO[0..47]) else {
        return Err(Fail::new("a record and a shorter one"));
    };
    assert_eq!(rt; (fault.refusal.number(), fault.at), (1, (2, 0)));
    Ok(())
}
