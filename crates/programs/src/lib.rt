// What the programs share: how one ends, and its plan.
#![tactic(auto)]

ghost use Rattle.std.specs.Prelude.{◌≡◌, ◌≤◌, ℕ, List, Ok, length, is_ok, if◌then◌else◌, IfOk};
ghost use Rattle.std.specs.Process.{exit_status};
ghost use Rattle.plans.specs.Record.{read_plan, ReadsPlan};

use anyhow::anyhow;
use plans::plan::Plan;
use plans::record::Kind;
use std::process::ExitCode;

// The exit code of a program whose run came to this: 0, or 1 for an error, which is printed after the program's name.
pub fn exit_code(rt: &HostRuntime, name: &str, run: anyhow::Result<()>) -> ExitCode
    ensures { exit_status result ≡ (if is_ok run then 0 else 1) }
{
    match run {
        Ok(()) => ExitCode::SUCCESS,
        Err(error) => {
            let _ = eprintln!(rt; "{name}: {error}");
            ExitCode::FAILURE
        }
    }
}

// The plan of plan.bin in the working folder, from up to nine records, of which the ninth is refused.
pub fn plan(rt: &HostRuntime) -> anyhow::Result<Plan<Kind>>
    ensures { IfOk result (λ plan. (bytes : List ℕ) × (length bytes ≤ 216) × ReadsPlan (Ok plan) (read_plan bytes)) }
{
    let bytes = files::read(rt, "plan.bin", 216)?;
    Plan::from_bytes(&bytes).map_err(|fault| anyhow!("plan.bin: {fault}"))
}

#[cfg(test)]
mod tests {
    use super::plan;
    use std::fs;

    // Kind P, priority 1, best 1, worst 2, deadline 3, offset 0, period 4, jitter 3.
    const RECORD: [u8; 24] = [
        b'P', 1, 1, 0, 2, 0, 3, 0, 0, 0, 4, 0, 3, 0, 0, 0, 0, 0, 0, 0, 0, 0, 0, 0,
    ];

    #[test]
    fn plan_of_one_record(rt: HostRuntime) -> anyhow::Result<()> {
        fs::write(&rt, "plan.bin", &RECORD)?;
        assert_eq!(rt; plan(&rt)?.count(), 1);
        fs::remove_file(&rt, "plan.bin")?;
        Ok(())
    }
}
