// Tables for plans that are drawn, against the states that the peer reaches.
use crate::draw::Draw;
use crate::falls::Kind;
use crate::kept::Kept;
use crate::library::{Streams, plan_of};
use crate::offered::Offers;
use crate::order::{Numbers, RULES};
use crate::shown::Lates;
use crate::spelled::Side;
use dispatch::Dispatch;
use refusals::Refusal;
use rules::Rule;
use schedule::Schedule;
use std::alloc::Global;
use std::collections::BTreeMap;
use std::process::Abort;
use std::test::*;

// Plans with more states are passed over.
const LIMIT: usize = 1500;

// How many tables were complete, by the number of tasks; how many were late by each cause; how many had too many states; and the
// states and ways of the complete ones.
#[derive(Drop)]
struct Tally {
    complete: BTreeMap<u8, u32>,
    late: Lates,
    passed_over: u32,
    states: usize,
    ways: u64,
}

impl Tally {
    fn complete(&mut self, side: &Side) -> Result<(), Fail> {
        self.states = self.states.saturating_add(side.reached.states());
        self.ways = self.ways.saturating_add(side.reached.ways);
        let tables = self.complete.entry(side.tasks)?.or_insert(0);
        *tables = tables.saturating_add(1);
        Ok(())
    }
}

#[derive(Drop)]
struct Trial {
    heap: Global,
    draw: Draw,
    tally: Tally,
    offers: Offers,
}

impl Trial {
    // So many tasks with small numbers.
    fn plan(&mut self, count: u16, slack: u16) -> Result<Vec<Numbers>, Fail> {
        let mut tasks = Vec::new(self.heap);
        for _ in 0..count {
            tasks.push(self.task(count.saturating_mul(slack)))?;
        }
        Ok(tasks)
    }

    // Mostly with arrivals every so many slots or every twice as many, so that few states are reached.
    fn task(&mut self, span: u16) -> Numbers {
        let long = span.saturating_mul(2);
        let any = self.draw.task(span, 2, 2, long);
        let deadline = any.deadline.max(self.draw.between(1, long));
        let period = if self.draw.below(2) == 0 { span } else { long };
        let spread = self.draw.between(0, 3) / 2;
        let offset = self.draw.between(0, 2);
        let kind = match self.draw.below(6) {
            0 => any.kind,
            1 => Kind::Sporadic {
                least: period,
                greatest: period.saturating_add(spread),
                offset,
            },
            _ => Kind::Periodic {
                period,
                jitter: spread.min(period.saturating_sub(1)),
                offset,
            },
        };
        Numbers {
            kind,
            deadline,
            ..any
        }
    }

    // Tables of these tasks under each rule.
    fn all_rules(&mut self, rt: &impl Abort, tasks: &[Numbers]) -> Result<(), Fail> {
        for rule in RULES.iter() {
            self.one_rule(rt, *rule, tasks)?;
        }
        Ok(())
    }

    fn one_rule(&mut self, rt: &impl Abort, rule: Rule, tasks: &[Numbers]) -> Result<(), Fail> {
        let schedule = Schedule {
            plan: plan_of(tasks)?,
            rule,
        };
        let Some(side) = Side::new(self.heap, rule, tasks, LIMIT)? else {
            self.tally.passed_over = self.tally.passed_over.saturating_add(1);
            return Ok(());
        };
        self.stepped(rt, &schedule, &side)?;
        if side.reached.late {
            return Ok(());
        }
        self.offers.all(rt, &schedule, &side)
    }

    // A table with rows enough, stepped to the end beside one that takes what it writes; and one with a row fewer.
    fn stepped<D: Dispatch>(
        &mut self,
        rt: &impl Abort,
        schedule: &Schedule<Streams, D>,
        side: &Side,
    ) -> Result<(), Fail> {
        let states = side.reached.states();
        let mut kept = Kept::new(self.heap, schedule, states)?;
        let mut other = Kept::new(self.heap, schedule, states)?;
        kept.finish_with(rt, schedule, &mut other)?;
        if side.reached.late {
            self.tally.late.count(side.late(rt, &kept)?);
            return Ok(());
        }
        side.complete(rt, &kept)?;
        self.tally.complete(side)?;
        self.too_few(rt, schedule, states)
    }

    // With one row fewer than states, a step is refused for want of a row.
    fn too_few<D: Dispatch>(
        &self,
        rt: &impl Abort,
        schedule: &Schedule<Streams, D>,
        states: usize,
    ) -> Result<(), Fail> {
        if states < 2 {
            return Ok(());
        }
        let mut kept = Kept::new(self.heap, schedule, states - 1)?;
        let Err(fault) = kept.finish(schedule) else {
            return Err(Fail::new("a row fewer than states"));
        };
        assert_eq!(rt; fault.refusal, Refusal::NoRowLeft);
        Ok(())
    }
}

fn show(rt: &HostRuntime, trial: &Trial) -> Result<(), Fail> {
    let Tally {
        complete,
        late,
        passed_over,
        states,
        ways,
    } = &trial.tally;
    println!(rt;
        "complete {complete:?} with {states} states and {ways} ways, {late}, passed over {passed_over}"
    )?;
    let Offers {
        taken,
        accepted,
        refused,
        ..
    } = &trial.offers;
    println!(rt; "records taken {taken}, damaged and taken {accepted}, refused {refused:?}")?;
    Ok(())
}

// Each number of tasks, each cause and each refusal that evidence can meet was seen.
fn seen(rt: &impl Abort, trial: &Trial) {
    for tasks in 1..5u8 {
        assert!(rt;
            trial.tally.complete.get(&tasks).copied().unwrap_or(0) >= 20,
            "complete for {tasks} tasks"
        );
    }
    assert!(rt;
        trial.tally.late.overlap >= 50 && trial.tally.late.deadline >= 50,
        "late"
    );
    for number in 9..19u8 {
        assert!(rt;
            trial.offers.refused.contains_key(&number),
            "refusal {number}"
        );
    }
}

#[test]
fn small_tables(rt: HostRuntime) -> Result<(), Fail> {
    let heap = rt.alloc();
    let mut trial = Trial {
        heap,
        draw: Draw { last: 362_436_069 },
        tally: Tally {
            complete: BTreeMap::new(heap),
            late: Lates::default(),
            passed_over: 0,
            states: 0,
            ways: 0,
        },
        offers: Offers {
            heap,
            draw: Draw { last: 123_456_789 },
            taken: 0,
            accepted: 0,
            refused: BTreeMap::new(heap),
        },
    };
    for i in 0..600u16 {
        let tasks = trial.plan(i % 4 + 1, i / 4 % 3 + 1)?;
        trial.all_rules(&rt, &tasks)?;
    }
    show(&rt, &trial)?;
    seen(&rt, &trial);
    Ok(())
}
