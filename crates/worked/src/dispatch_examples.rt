// Each dispatch rule on a few views of the tasks.
use dispatch::keeping::Keeping;
use dispatch::priority::Priority;
use dispatch::waiting::Waiting;
use dispatch::{Dispatch, Seen};

// A task with a job of this age, and a task without one.
fn job(priority: u8, age: u16) -> Seen {
    Seen {
        priority,
        age: Some(age),
    }
}

fn no_job(priority: u8) -> Seen {
    Seen {
        priority,
        age: None,
    }
}

#[test]
fn priority_picks(rt: HostRuntime) {
    let rule = Priority;
    assert_eq!(rt; rule.pick(&[], 0), 0);
    assert_eq!(rt; rule.pick(&[no_job(9), no_job(1)], 1), 0);
    assert_eq!(rt; rule.pick(&[job(1, 9), job(2, 0)], 1), 2);
    assert_eq!(rt; rule.pick(&[job(2, 0), job(2, 9)], 2), 1);
    assert_eq!(rt; rule.pick(&[no_job(9), job(0, 0)], 1), 2);
}

#[test]
fn waiting_picks(rt: HostRuntime) {
    let rule = Waiting;
    assert_eq!(rt; rule.pick(&[], 0), 0);
    assert_eq!(rt; rule.pick(&[no_job(9), no_job(1)], 2), 0);
    assert_eq!(rt; rule.pick(&[job(9, 1), job(1, 2)], 1), 2);
    assert_eq!(rt; rule.pick(&[job(1, 5), job(9, 5)], 2), 1);
    assert_eq!(rt; rule.pick(&[no_job(9), job(0, 0)], 1), 2);
}

#[test]
fn keeping_over_priority_picks(rt: HostRuntime) {
    let rule = Keeping { below: Priority };
    assert_eq!(rt; rule.pick(&[], 3), 0);
    assert_eq!(rt; rule.pick(&[no_job(9), no_job(1)], 1), 0);
    assert_eq!(rt; rule.pick(&[job(1, 0), job(2, 0)], 1), 1);
    assert_eq!(rt; rule.pick(&[job(1, 0), job(2, 0)], 0), 2);
    assert_eq!(rt; rule.pick(&[no_job(9), job(1, 0), job(2, 0)], 1), 3);
    assert_eq!(rt; rule.pick(&[job(1, 0), job(2, 0)], 3), 2);
}

#[test]
fn keeping_over_waiting_picks(rt: HostRuntime) {
    let rule = Keeping { below: Waiting };
    assert_eq!(rt; rule.pick(&[], 0), 0);
    assert_eq!(rt; rule.pick(&[job(9, 1), job(1, 2)], 1), 1);
    assert_eq!(rt; rule.pick(&[job(9, 1), job(1, 2)], 0), 2);
    assert_eq!(rt; rule.pick(&[no_job(9), job(9, 1), job(1, 2)], 1), 3);
}

#[test]
fn keeping_twice_picks(rt: HostRuntime) {
    let rule = Keeping {
        below: Keeping { below: Priority },
    };
    assert_eq!(rt; rule.pick(&[job(1, 0), job(2, 0)], 1), 1);
    assert_eq!(rt; rule.pick(&[no_job(1), job(2, 0)], 1), 2);
}
