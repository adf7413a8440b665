// Prints the listing of plan.bin and evidence.bin in the working folder.
#![tactic(auto)]

use files::read_if_present;
use listing::list::listing;
use std::io::Write;
use std::process::ExitCode;

fn main(rt: HostRuntime) -> ExitCode {
    programs::exit_code(&rt, "timing", run(&rt))
}

// Nine plan records, of which the ninth is refused, and 4,095 records of evidence; a file that is absent is empty.
fn run(rt: &HostRuntime) -> anyhow::Result<()> {
    let plan = read_if_present(rt, "plan.bin", 216)?;
    let evidence = read_if_present(rt, "evidence.bin", 65_520)?;
    let mut text = [0u8; 512];
    let length = listing(&plan, &evidence, &mut text)?;
    Ok(rt.stdout().write_all(&text[0..length])?)
}
