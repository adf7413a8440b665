// A table against what the peer reached: its counts, its times, and the runs that it spells out.
use crate::kept::Kept;
use crate::order::Numbers;
use crate::reached::Reached;
use crate::scheduler::Peer;
use crate::shown::{Done, PeerOutcome};
use exploration::{Shown, Stage};
use outcome::Cause;
use rules::Rule;
use std::alloc::Global;
use std::process::Abort;
use std::test::*;

// The peer at the start of a plan of so many tasks, and what it reaches.
#[derive(Drop)]
pub struct Side {
    pub heap: Global,
    pub tasks: u8,
    pub start: Peer,
    pub reached: Reached,
}

// The handle and the table go in one by one: a struct of borrows would carry a lifetime for each, and say no more.
impl Side {
    // None if more states are reached than the limit.
    pub(crate) fn new(
        heap: Global,
        rule: Rule,
        tasks: &[Numbers],
        limit: usize,
    ) -> Result<Option<Side>, Fail> {
        let start = Peer::new(heap, rule, tasks)?;
        let Some(reached) = Reached::from(heap, start.clone()?, limit)? else {
            return Ok(None);
        };
        Ok(Some(Side {
            heap,
            tasks: u8::try_from(tasks.len())?,
            start,
            reached,
        }))
    }

    // The table is complete, and tells what the peer does.
    pub(crate) fn complete(&self, rt: &impl Abort, kept: &Kept) -> Result<(), Fail> {
        let numbers = kept.table.numbers();
        assert_eq!(rt; numbers.stage, Stage::Complete);
        assert_eq!(rt; usize::from(numbers.held), self.reached.states(), "states");
        assert_eq!(rt; numbers.walked, self.reached.ways, "ways");
        for task in 1..=self.tasks {
            let times = self.times(rt, kept, task)?;
            let span = self.reached.span(task);
            assert_eq!(rt; times, (span.map(|s| s.least), span.map(|s| s.greatest)));
        }
        Ok(())
    }

    // The times of a task.
    fn times(
        &self,
        rt: &impl Abort,
        kept: &Kept,
        task: u8,
    ) -> Result<(Option<u32>, Option<u32>), Fail> {
        let times = kept.table.times(task)?;
        let least = self.response(rt, kept, task, times.least)?;
        let greatest = self.response(rt, kept, task, times.greatest)?;
        Ok((least, greatest))
    }

    // The response shown, which the peer has at the end of the run that is spelled out for it.
    fn response(
        &self,
        rt: &impl Abort,
        kept: &Kept,
        task: u8,
        time: Option<Shown>,
    ) -> Result<Option<u32>, Fail> {
        let Some(time) = time else {
            return Ok(None);
        };
        let response = u32::from(time.response);
        let last = self.last_slot(rt, kept, time.row, time.way)?;
        assert_eq!(rt;
            last.ended(),
            Some(Done { task, response }),
            "the run of a time"
        );
        Ok(Some(response))
    }

    // The table is late, and so is the peer in the run that is spelled out.
    pub(crate) fn late(&self, rt: &impl Abort, kept: &Kept) -> Result<Cause, Fail> {
        let Stage::Late {
            row,
            way,
            task,
            cause,
        } = kept.table.numbers().stage
        else {
            return Err(Fail::new("late in the peer alone"));
        };
        let PeerOutcome::Late {
            task: named,
            cause: why,
            ..
        } = self.last_slot(rt, kept, row, way)?
        else {
            return Err(Fail::new("the run of a late table is not late"));
        };
        assert_eq!(rt; (task, cause), (named, why));
        for task in 1..=self.tasks {
            self.times(rt, kept, task)?;
        }
        Ok(why)
    }

    // The last slot of the run that a row and a way spell out.
    fn last_slot(
        &self,
        rt: &impl Abort,
        kept: &Kept,
        row: u16,
        way: u32,
    ) -> Result<PeerOutcome, Fail> {
        let ways = spelled(rt, self.heap, kept, row)?;
        let mut peer = self.start.clone()?;
        for way in ways.iter().rev() {
            let PeerOutcome::Next { peer: after, .. } = peer.slot(self.heap, *way)? else {
                return Err(Fail::new("the run to a row does not go on"));
            };
            peer = after;
        }
        Ok(peer.slot(self.heap, way)?)
    }
}

// The ways by which origins lead from a row back to row 1.
fn spelled(rt: &impl Abort, heap: Global, kept: &Kept, row: u16) -> Result<Vec<u32>, Fail> {
    let mut ways = Vec::new(heap);
    let mut at = row;
    // No clause says that origins lead downwards, so the number of rows bounds the loop.
    for _ in 0..kept.rows.len() {
        let (origin, way) = kept.table.origin(&kept.rows, u32::from(at))?;
        if origin == 0 {
            assert_eq!(rt; (at, way), (1, 0), "where the origins end");
            return Ok(ways);
        }
        ways.push(way)?;
        at = origin;
    }
    Err(Fail::new("the origins do not end"))
}
