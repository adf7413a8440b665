// Drawn evidence, offered to tables whole, in part, damaged, and with too few rows.
use crate::draw::Draw;
use crate::kept::Kept;
use crate::library::Streams;
use crate::spelled::Side;
use crate::written::evidence;
use dispatch::Dispatch;
use refusals::Refusal;
use schedule::Schedule;
use std::alloc::Global;
use std::collections::BTreeMap;
use std::process::Abort;
use std::test::*;

// How many records were taken, how many damaged ones were true all the same, and how often each refusal was seen, by its number.
#[derive(Drop)]
pub struct Offers {
    pub heap: Global,
    pub draw: Draw,
    pub taken: u64,
    pub accepted: u32,
    // By number, as the line that is printed shows them.
    pub refused: BTreeMap<u8, u32>,
}

// What a try needs is borrowed for it and goes in one by one: a struct of borrows would carry a lifetime for each, and say no more.
impl Offers {
    // Evidence for a plan that is never late.
    pub(crate) fn all<D: Dispatch>(
        &mut self,
        rt: &impl Abort,
        schedule: &Schedule<Streams, D>,
        side: &Side,
    ) -> Result<(), Fail> {
        let eager = self.draw.below(90);
        let records = evidence(self.heap, schedule, &mut self.draw, eager)?;
        let states = side.reached.states();
        self.whole(rt, schedule, side, &records)?;
        self.part(rt, schedule, side, &records)?;
        self.damaged(rt, schedule, side, &records)?;
        if states > 1 {
            self.too_few(rt, schedule, states - 1, &records)?;
        }
        Ok(())
    }

    // A new table with so many rows, after the first records.
    fn taken<D: Dispatch>(
        &mut self,
        schedule: &Schedule<Streams, D>,
        size: usize,
        records: &[[u8; 16]],
        count: usize,
    ) -> Result<Kept, Fail> {
        let mut kept = Kept::new(self.heap, schedule, size)?;
        for bytes in records.iter().take(count) {
            kept.take(schedule, bytes)?;
            self.taken = self.taken.saturating_add(1);
        }
        Ok(kept)
    }

    // All of it makes the table complete, and nothing can be taken then.
    fn whole<D: Dispatch>(
        &mut self,
        rt: &impl Abort,
        schedule: &Schedule<Streams, D>,
        side: &Side,
        records: &[[u8; 16]],
    ) -> Result<(), Fail> {
        let mut kept = self.taken(schedule, side.reached.states(), records, records.len())?;
        side.complete(rt, &kept)?;
        let Some(bytes) = records.first() else {
            return Err(Fail::new("no records"));
        };
        assert_eq!(rt;
            self.offer(rt, schedule, &mut kept, bytes)?,
            Some(Refusal::Closed),
            "taken after the end"
        );
        Ok(())
    }

    // The first records, and then steps.
    fn part<D: Dispatch>(
        &mut self,
        rt: &impl Abort,
        schedule: &Schedule<Streams, D>,
        side: &Side,
        records: &[[u8; 16]],
    ) -> Result<(), Fail> {
        let count = self.draw.below(u32::try_from(records.len())?) as usize;
        let mut kept = self.taken(schedule, side.reached.states(), records, count)?;
        kept.finish(schedule)?;
        side.complete(rt, &kept)
    }

    // Before one record in four comes a damaged one. If that is true all the same, steps go on from there.
    fn damaged<D: Dispatch>(
        &mut self,
        rt: &impl Abort,
        schedule: &Schedule<Streams, D>,
        side: &Side,
        records: &[[u8; 16]],
    ) -> Result<(), Fail> {
        let more = self.draw.below(3) as usize;
        let size = side.reached.states().saturating_add(more);
        let mut kept = Kept::new(self.heap, schedule, size)?;
        for (i, bytes) in records.iter().enumerate() {
            if self.draw.below(4) == 0 {
                let other = self.damage(bytes, records)?;
                if self.offer(rt, schedule, &mut kept, &other)?.is_none() {
                    assert!(rt; may_be_true(&other, records, i), "taken");
                    self.accepted = self.accepted.saturating_add(1);
                    break;
                }
            }
            kept.take(schedule, bytes)?;
        }
        kept.finish(schedule)?;
        side.complete(rt, &kept)
    }

    // A record with one byte changed, or cut short, or with a byte more, or another record.
    fn damage(&mut self, bytes: &[u8; 16], records: &[[u8; 16]]) -> Result<Vec<u8>, Fail> {
        let mut other = bytes.to_vec(self.heap)?;
        let place = self.draw.below(16) as usize;
        match self.draw.below(6) {
            0 | 1 => {
                let change = self.change()?;
                if let Some(byte) = other.get_mut(place) {
                    *byte = *byte ^ change;
                }
            }
            2 => other.truncate(place),
            3 => other.push(0)?,
            _ => {
                let i = self.draw.below(u32::try_from(records.len())?) as usize;
                if let Some(bytes) = records.get(i) {
                    other = bytes.to_vec(self.heap)?;
                }
            }
        }
        Ok(other)
    }

    // What a byte is changed by: as often few of its low bits as any, and at least one.
    fn change(&mut self) -> Result<u8, Fail> {
        let most = if self.draw.below(2) == 0 { 3 } else { 255 };
        Ok(u8::try_from(self.draw.below(most))?.saturating_add(1))
    }

    // With one row fewer than states, the evidence is taken up to the first record that finds no row.
    fn too_few<D: Dispatch>(
        &mut self,
        rt: &impl Abort,
        schedule: &Schedule<Streams, D>,
        size: usize,
        records: &[[u8; 16]],
    ) -> Result<(), Fail> {
        let mut kept = Kept::new(self.heap, schedule, size)?;
        for bytes in records {
            if let Some(refusal) = self.offer(rt, schedule, &mut kept, bytes)? {
                assert_eq!(rt; usize::from(kept.table.numbers().held), size);
                assert_eq!(rt; refusal, Refusal::NoRowLeft);
                return Ok(());
            }
        }
        Err(Fail::new("a row fewer than states"))
    }

    // The refusal, if the bytes are refused. The table and its rows are then as before.
    fn offer<D: Dispatch>(
        &mut self,
        rt: &impl Abort,
        schedule: &Schedule<Streams, D>,
        kept: &mut Kept,
        bytes: &[u8],
    ) -> Result<Option<Refusal>, Fail> {
        let before = kept.copied()?;
        let Err(fault) = kept.take(schedule, bytes) else {
            return Ok(None);
        };
        // A refusal changes nothing.
        before.same(rt, kept);
        let number = fault.refusal.number();
        assert!(rt; fits(bytes, fault.refusal), "refusal {number}");
        let times = self.refused.entry(number)?.or_insert(0);
        *times = times.saturating_add(1);
        Ok(Some(fault.refusal))
    }
}

fn begins(bytes: &[u8], letter: u8) -> bool {
    bytes.first().copied() == Some(letter)
}

// Of walk records only the next of the evidence is true. What grows shows in the counts at the end.
fn may_be_true(bytes: &[u8], records: &[[u8; 16]], next: usize) -> bool {
    if begins(bytes, b'G') {
        return true;
    }
    let mut walks = records.iter().skip(next).filter(|walk| begins(*walk, b'W'));
    walks.next().is_some_and(|walk| bytes == walk.as_slice())
}

// Whether bytes of this length and first letter can be refused so.
fn fits(bytes: &[u8], refusal: Refusal) -> bool {
    let whole = bytes.len() == 16;
    match refusal {
        Refusal::Length => !whole,
        Refusal::Letters | Refusal::Closed => whole,
        Refusal::RowNotHeld
        | Refusal::NoSuchWay
        | Refusal::WayVoidOrLate
        | Refusal::StateHeld
        | Refusal::NoRowLeft => whole && begins(bytes, b'G'),
        Refusal::NotNext | Refusal::OutcomeWrong => whole && begins(bytes, b'W'),
        _ => false,
    }
}
