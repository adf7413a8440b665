// Replays a plan along a list of ways, and prints slot by slot what it shows.
#![tactic(auto)]

mod text;
mod ways;

use plans::plan::Plan;
use plans::record::Kind;
use rules::Rule;
use runs::{Replayed, Stop, replay};
use slot::event::Event;
use std::env;
use std::process::ExitCode;
use text::{ResponsesLine, SlotLine};
use ways::read_ways;

fn main(rt: HostRuntime) -> ExitCode {
    programs::exit_code(&rt, "replay", run(&rt))
}

// Replays plan.bin along the ways in ways.txt.
fn run(rt: &HostRuntime) -> anyhow::Result<()> {
    let plan = programs::plan(rt)?;
    let ways = read_ways(rt, "ways.txt")?;
    show(rt, &plan, rule_named(rt)?, &ways)
}

// The rule that the first argument names; without one it is priority.
fn rule_named(rt: &HostRuntime) -> anyhow::Result<Rule> {
    match env::args(rt)?.nth(1) {
        Some(word) => Ok(word.as_str().parse::<Rule>()?),
        None => Ok(Rule::Priority),
    }
}

fn show(rt: &HostRuntime, plan: &Plan<Kind>, rule: Rule, ways: &[u32]) -> anyhow::Result<()> {
    let mut trace = vec![in rt.alloc(); Event::default(); ways.len()]?;
    let replayed = replay(plan, &rule, ways, &mut trace);
    let events = trace.get(..replayed.slots).unwrap_or(&trace);
    for (slot, event) in events.iter().enumerate() {
        rt.println(SlotLine {
            slot,
            event: *event,
        })?;
    }
    stopped(rt, replayed, ways)?;
    for task in 1..=plan.count() as u8 {
        rt.println(ResponsesLine { task, events })?;
    }
    Ok(())
}

// Why the replay stopped before the last way, or in it.
fn stopped(rt: &HostRuntime, replayed: Replayed, ways: &[u32]) -> anyhow::Result<()> {
    let slot = replayed.slots;
    match replayed.stop {
        Stop::End { .. } => {}
        Stop::Void => {
            if let Some(way) = ways.get(slot) {
                println!(rt; "slot {slot}: way {way} is void")?;
            }
        }
        Stop::Late { task, cause } => println!(rt; "late: task {task}, cause {cause}")?,
    }
    Ok(())
}
