// The number of each refusal, and a fault as it is shown.
use refusals::Refusal;
use std::test::Fail;

#[test]
fn numbers(rt: HostRuntime) {
    let all = [
        Refusal::RecordLength,
        Refusal::Kind,
        Refusal::TaskBounds,
        Refusal::StreamBounds,
        Refusal::ZeroBytes,
        Refusal::PlanFull,
        Refusal::PlanEmpty,
        Refusal::RowCount,
        Refusal::Length,
        Refusal::Letters,
        Refusal::Closed,
        Refusal::RowNotHeld,
        Refusal::NoSuchWay,
        Refusal::WayVoidOrLate,
        Refusal::StateHeld,
        Refusal::NoRowLeft,
        Refusal::NotNext,
        Refusal::OutcomeWrong,
        Refusal::NoSuchTask,
    ];
    for (i, refusal) in all.iter().enumerate() {
        assert_eq!(rt; refusal.number() as usize, i + 1);
    }
    assert_eq!(rt; all.len(), 19);
}

#[test]
fn meanings(rt: HostRuntime) {
    assert_eq!(rt; Refusal::PlanEmpty.meaning(), "plan has no task");
    assert_eq!(rt; Refusal::NotNext.meaning(), "not the next row and way");
}

#[test]
fn faults(rt: HostRuntime) -> Result<(), Fail> {
    let fault = Refusal::NoRowLeft.at(12, 3);
    let text = format!(in rt.alloc(); "{fault}")?;
    assert_eq!(rt;
        text.as_str(),
        "refused 16 12 3: state is new, but no row is left"
    );
    Ok(())
}
