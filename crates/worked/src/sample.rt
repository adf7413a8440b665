// The sample plan, and steps of a table for it.
use dispatch::priority::Priority;
use evidence::keep::step;
use exploration::Row;
use plans::plan::Plan;
use plans::record::Kind;
use refusals::Fault;
use schedule::Schedule;
use slot::state::State;
use table::system::System;
use table::table::Table;

// Task 1: priority 2, period 2, one slot of work, deadline 2. Task 2: priority 1, period 4, work 1 to 2, deadline 4.
pub const SAMPLE: [u8; 48] = [
    80, 2, 1, 0, 1, 0, 2, 0, 0, 0, 2, 0, 0, 0, 0, 0, 0, 0, 0, 0, 0, 0, 0, 0, 80, 1, 1, 0, 2, 0, 4,
    0, 0, 0, 4, 0, 0, 0, 0, 0, 0, 0, 0, 0, 0, 0, 0, 0,
];

pub(crate) fn sample() -> Result<Schedule<Kind, Priority>, Fault> {
    let plan = Plan::from_bytes(&SAMPLE)?;
    Ok(Schedule {
        plan,
        rule: Priority,
    })
}

// The number and the places of a refusal.
pub(crate) fn refused(answer: Result<(), Fault>) -> Option<(u8, u32, u32)> {
    answer
        .err()
        .map(|fault| (fault.refusal.number(), fault.at.0, fault.at.1))
}

// Steps a table so often.
pub(crate) fn steps(
    table: &mut Table,
    schedule: &Schedule<Kind, Priority>,
    rows: &mut [Row<State>],
    count: u8,
) {
    for _ in 0..count {
        let mut place = [0u8; 32];
        let _ = step(table, schedule, rows, &mut place);
    }
}
