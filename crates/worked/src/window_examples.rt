// The windows of the sample plan.
use crate::sample::{sample, steps};
use evidence::open::open;
use std::test::Fail;
use table::system::start_row;
use windows::read::window;
use windows::window::Window;

// No window before the table is complete; then task 1 responds in 1 to 1 slots, and task 2 in 2 to 4.
#[test]
fn told_once_complete(rt: HostRuntime) -> Result<(), Fail> {
    let schedule = sample()?;
    let mut rows = [start_row(&schedule); 6];
    let mut table = open(&schedule, &mut rows)?;
    assert_eq!(rt; window(&table, &schedule, &rows, 1)?, None);
    steps(&mut table, &schedule, &mut rows, 12);
    let one = Window {
        least: 1,
        greatest: 1,
    };
    let two = Window {
        least: 2,
        greatest: 4,
    };
    assert_eq!(rt; window(&table, &schedule, &rows, 1)?, Some(one));
    assert_eq!(rt; window(&table, &schedule, &rows, 2)?, Some(two));
    assert!(rt; window(&table, &schedule, &rows, 3).is_err(), "task 3");
    Ok(())
}
