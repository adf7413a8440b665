// Listings of the sample plan: without evidence, with evidence, and refused.
use crate::sample::SAMPLE;
use evidence::wire::encode;
use exploration::{Claim, Record};
use listing::export::roof_listing;
use listing::list::listing;
use std::alloc::Global;
use std::process::Abort;
use std::test::Fail;

const WHOLE: &[u8] = b"1 1 1\n2 2 4\ncomplete 6 12\n";

// The text of a listing, and that the rest of the place is as it was.
fn listed(rt: &impl Abort, heap: Global, plan: &[u8], evidence: &[u8]) -> Result<Vec<u8>, Fail> {
    let mut place = [7u8; 520];
    let length = listing(plan, evidence, &mut place)?;
    assert!(rt; length <= 520);
    for byte in place[length..520].iter() {
        assert_eq!(rt; *byte, 7, "the rest of the place");
    }
    Ok(place[0..length].to_vec(heap)?)
}

fn check_listing(
    rt: &impl Abort,
    heap: Global,
    plan: &[u8],
    evidence: &[u8],
    text: &[u8],
) -> Result<(), Fail> {
    let lines = listed(rt, heap, plan, evidence)?;
    assert!(rt; lines.as_slice() == text);
    Ok(())
}

fn grow(row: u32, way: u32) -> [u8; 16] {
    encode(Record::Grow { row, way })
}

fn leads(row: u32, way: u32, target: u32) -> [u8; 16] {
    encode(Record::Walk {
        row,
        way,
        claim: Claim::Target(target),
    })
}

fn void(row: u32) -> [u8; 16] {
    encode(Record::Walk {
        row,
        way: 1,
        claim: Claim::Void,
    })
}

// Rows grown in another order than steps grow them: first the run in which the second task works two slots.
fn other_order(heap: Global) -> Result<Vec<u8>, Fail> {
    let records = [
        grow(1, 0),
        grow(2, 1),
        grow(3, 0),
        grow(2, 0),
        grow(5, 0),
        leads(1, 0, 2),
        void(1),
        leads(2, 0, 5),
        leads(2, 1, 3),
        leads(3, 0, 4),
        void(3),
        leads(4, 0, 1),
        void(4),
        leads(5, 0, 6),
        void(5),
        leads(6, 0, 1),
        void(6),
    ];
    let mut bytes = Vec::new(heap);
    for record in records.iter() {
        bytes.extend_from_slice(record)?;
    }
    Ok(bytes)
}

#[test]
fn without_evidence(rt: HostRuntime) -> Result<(), Fail> {
    check_listing(&rt, rt.alloc(), &SAMPLE, &[], WHOLE)
}

// Whole evidence, and evidence after which steps are made.
#[test]
fn with_evidence(rt: HostRuntime) -> Result<(), Fail> {
    let evidence = other_order(rt.alloc())?;
    assert!(rt; evidence.len() == 272);
    check_listing(&rt, rt.alloc(), &SAMPLE, &evidence, WHOLE)?;
    check_listing(&rt, rt.alloc(), &SAMPLE, &evidence[0..144], WHOLE)
}

// A record too many, and one that is cut short.
#[test]
fn evidence_refused(rt: HostRuntime) -> Result<(), Fail> {
    let mut evidence = other_order(rt.alloc())?;
    assert!(rt; evidence.len() == 272);
    check_listing(
        &rt,
        rt.alloc(),
        &SAMPLE,
        &evidence[0..100],
        b"1 1 1\n2 - -\nwalking 6 1\nrefused E 9 0 0\n",
    )?;
    evidence.extend_from_slice(&grow(1, 1))?;
    check_listing(
        &rt,
        rt.alloc(),
        &SAMPLE,
        &evidence,
        b"1 1 1\n2 2 4\ncomplete 6 12\nrefused E 11 1 1\n",
    )
}

// Without a task, with half a record, and with nine.
#[test]
fn plan_refused(rt: HostRuntime) -> Result<(), Fail> {
    let heap = rt.alloc();
    check_listing(&rt, heap, &[], &[], b"refused P 7 0 0\n")?;
    check_listing(&rt, heap, &SAMPLE[0..36], &[], b"refused P 1 2 0\n")?;
    let mut nine = Vec::new(heap);
    for _ in 0..9 {
        nine.extend_from_slice(&SAMPLE[24..48])?;
    }
    check_listing(&rt, heap, &nine, &[], b"refused P 6 9 0\n")
}

// A period of 300 slots has more than 256 states.
#[test]
fn no_row_left(rt: HostRuntime) -> Result<(), Fail> {
    let mut plan = SAMPLE;
    plan[34] = 44;
    plan[35] = 1;
    check_listing(
        &rt,
        rt.alloc(),
        &plan,
        &[],
        b"1 1 1\n2 2 4\nwalking 256 510\nrefused S 16 256 0\n",
    )
}

// A host in C gets the length, or -9 for a place that is too short.
#[test]
fn exported(rt: HostRuntime) {
    let mut place = [7u8; 512];
    assert_eq!(rt; roof_listing(&SAMPLE, &[], &mut place), 26);
    let mut short = [7u8; 511];
    assert_eq!(rt; roof_listing(&SAMPLE, &[], &mut short), -9);
    assert_eq!(rt; short[0], 7);
}
