// Numbers, tasks and ways, drawn one from another.
use crate::falls::Kind;
use crate::order::Numbers;

#[derive(Drop)]
pub struct Draw {
    pub last: u32,
}

impl Draw {
    // The next number of the sequence, which never comes to 0 from another.
    fn number(&mut self) -> u32 {
        let mut x = self.last;
        x = x ^ x.wrapping_shl(13);
        x = x ^ x.wrapping_shr(17);
        x = x ^ x.wrapping_shl(5);
        self.last = x;
        x
    }

    // A number below the limit, or 0.
    pub(crate) fn below(&mut self, limit: u32) -> u32 {
        self.number().checked_rem(limit).unwrap_or(0)
    }

    // A number from the low to the high one.
    pub(crate) fn between(&mut self, low: u16, high: u16) -> u16 {
        let span = u32::from(high.saturating_sub(low)).saturating_add(1);
        low.saturating_add(u16::try_from(self.below(span)).unwrap_or(0))
    }

    // A way's number: one in five is past the last.
    pub(crate) fn way(&mut self, ways: u32) -> u32 {
        let past = (ways / 4).saturating_add(1);
        self.below(ways.saturating_add(past))
    }

    // Few priorities, so that many are equal, or any.
    fn priority(&mut self) -> u8 {
        let high = if self.between(0, 3) == 0 { 255 } else { 3 };
        u8::try_from(self.between(1, high)).unwrap_or(1)
    }

    // A stream with about this many slots from arrival to arrival.
    fn kind(&mut self, span: u16, offset: u16) -> Kind {
        let offset = self.between(0, offset);
        let low = self.between((span / 2).saturating_add(1), span.saturating_mul(2));
        if self.between(0, 1) == 0 {
            let most = if self.between(0, 1) == 0 {
                low
            } else {
                span / 2
            };
            let jitter = self.between(0, most).min(low.saturating_sub(1));
            Kind::Periodic {
                period: low,
                jitter,
                offset,
            }
        } else {
            let greatest = self.between(low, low.saturating_add(span));
            Kind::Sporadic {
                least: low,
                greatest,
                offset,
            }
        }
    }

    // A task that works at most this long, by a deadline of at most this.
    pub(crate) fn task(&mut self, span: u16, offset: u16, work: u16, deadline: u16) -> Numbers {
        let kind = self.kind(span, offset);
        let worst = self.between(1, work);
        let best = self.between(1, worst);
        Numbers {
            kind,
            priority: self.priority(),
            best,
            worst,
            deadline: self.between(worst, deadline.max(worst)),
        }
    }
}
