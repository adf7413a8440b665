// Plans with known reachable states.
use crate::falls::Kind;
use crate::order::Numbers;
use crate::spelled::Side;
use rules::Rule;
use std::alloc::Global;
use std::process::Abort;
use std::test::*;

fn task(kind: Kind, priority: u8, best: u16, worst: u16, deadline: u16) -> Numbers {
    Numbers {
        kind,
        priority,
        best,
        worst,
        deadline,
    }
}

fn periodic(period: u16, jitter: u16, offset: u16) -> Kind {
    Kind::Periodic {
        period,
        jitter,
        offset,
    }
}

// By priority: the numbers of states and ways, and whether a way is late.
fn counts(
    rt: &impl Abort,
    heap: Global,
    tasks: &[Numbers],
    states: usize,
    ways: u64,
    late: bool,
) -> Result<Side, Fail> {
    let Some(side) = Side::new(heap, Rule::Priority, tasks, 100)? else {
        return Err(Fail::new("more than 100 states"));
    };
    assert_eq!(rt; side.reached.states(), states, "states");
    assert_eq!(rt; side.reached.ways, ways, "ways");
    assert_eq!(rt; side.reached.late, late, "late");
    Ok(side)
}

fn responses(side: &Side, task: u8) -> Option<(u32, u32)> {
    side.reached
        .span(task)
        .map(|span| (span.least, span.greatest))
}

// Task 2 waits for task 1 once or twice.
#[test]
fn six_states(rt: HostRuntime) -> Result<(), Fail> {
    let tasks = [
        task(periodic(2, 0, 0), 2, 1, 1, 2),
        task(periodic(4, 0, 0), 1, 1, 2, 4),
    ];
    let side = counts(&rt, rt.alloc(), &tasks, 6, 12, false)?;
    assert_eq!(rt; responses(&side, 1), Some((1, 1)));
    assert_eq!(rt; responses(&side, 2), Some((2, 4)));
    Ok(())
}

// Kind P: one slot before the offset, phase 0, phase 1 with and without an arrival, phase 2. Kind S: one slot before the first
// arrival, none before it, and one, two and three slots past the last. Each has one state with a choice.
#[test]
fn five_states_of_each_kind(rt: HostRuntime) -> Result<(), Fail> {
    let gaps = Kind::Sporadic {
        least: 2,
        greatest: 3,
        offset: 1,
    };
    counts(&rt, rt.alloc(), &[task(gaps, 1, 1, 1, 1)], 5, 12, false)?;
    let tasks = [task(periodic(3, 1, 1), 1, 1, 1, 1)];
    let side = counts(&rt, rt.alloc(), &tasks, 5, 12, false)?;
    assert_eq!(rt; responses(&side, 1), Some((1, 1)));
    Ok(())
}

// Task 1 ends in the slot in which task 2 misses its deadline, and the only run ends there.
#[test]
fn two_states_and_late(rt: HostRuntime) -> Result<(), Fail> {
    let tasks = [
        task(periodic(8, 0, 0), 2, 2, 2, 2),
        task(periodic(8, 0, 0), 1, 1, 1, 2),
    ];
    let side = counts(&rt, rt.alloc(), &tasks, 2, 4, true)?;
    assert_eq!(rt; responses(&side, 1), Some((2, 2)));
    assert_eq!(rt; responses(&side, 2), None);
    Ok(())
}
