// Tables of the sample plan: stepped to the end, and refused.
use crate::sample::{refused, sample, steps};
use evidence::keep::{step, take};
use evidence::open::open;
use evidence::wire::encode;
use exploration::{Claim, Record, Stage, Times};
use std::test::Fail;
use table::system::start_row;

// The responses shown for a task.
fn shown(times: Times) -> Option<(u16, u16)> {
    let (least, greatest) = times.least.zip(times.greatest)?;
    Some((least.response, greatest.response))
}

#[test]
fn complete_after_twelve_ways(rt: HostRuntime) -> Result<(), Fail> {
    let schedule = sample()?;
    let mut rows = [start_row(&schedule); 6];
    let mut table = open(&schedule, &mut rows)?;
    steps(&mut table, &schedule, &mut rows, 11);
    assert_eq!(rt; table.numbers().stage, Stage::Walking);
    steps(&mut table, &schedule, &mut rows, 1);
    assert_eq!(rt; table.numbers().stage, Stage::Complete);
    assert_eq!(rt; (table.numbers().held, table.numbers().walked), (6, 12));
    assert_eq!(rt; shown(table.times(1)?), Some((1, 1)));
    assert_eq!(rt; shown(table.times(2)?), Some((2, 4)));
    Ok(())
}

// Too few rows: the seventh step finds no row, with the next row and way.
#[test]
fn no_row_left_in_five(rt: HostRuntime) -> Result<(), Fail> {
    let schedule = sample()?;
    let mut rows = [start_row(&schedule); 5];
    let mut table = open(&schedule, &mut rows)?;
    steps(&mut table, &schedule, &mut rows, 6);
    let mut place = [7u8; 32];
    let Err(fault) = step(&mut table, &schedule, &mut rows, &mut place) else {
        return Err(Fail::new("a sixth row of five"));
    };
    assert_eq!(rt; fault.refusal.number(), 16);
    assert_eq!(rt; place, [7u8; 32]);
    Ok(())
}

// In a new table: way 2 is no way of row 1, way 1 is void, and way 0 does not lead back to row 1.
#[test]
fn refused_records(rt: HostRuntime) -> Result<(), Fail> {
    let schedule = sample()?;
    let mut rows = [start_row(&schedule); 6];
    let mut table = open(&schedule, &mut rows)?;
    let no_way = encode(Record::Grow { row: 1, way: 2 });
    let void = encode(Record::Grow { row: 1, way: 1 });
    let wrong = encode(Record::Walk {
        row: 1,
        way: 0,
        claim: Claim::Target(1),
    });
    assert_eq!(rt;
        refused(take(&mut table, &schedule, &mut rows, &no_way)),
        Some((13, 1, 2))
    );
    assert_eq!(rt;
        refused(take(&mut table, &schedule, &mut rows, &void)),
        Some((14, 1, 1))
    );
    assert_eq!(rt;
        refused(take(&mut table, &schedule, &mut rows, &wrong)),
        Some((18, 1, 0))
    );
    assert_eq!(rt;
        refused(take(&mut table, &schedule, &mut rows, &wrong[0..15])),
        Some((9, 0, 0))
    );
    Ok(())
}
