// When an arrival may or must fall, told from the slots of the arrivals before.
ghost use Rattle.std.specs.Prelude.{◌≡◌, ◌<◌, ◌≤◌, ◌≢◌};
ghost use Rattle.peer.specs.declared.falls.Falls.TheVariants.{Never, May, Must};

// The kinds of stream, by their numbers.
#[derive(Clone, Copy)]
pub enum Kind {
    Periodic {
        period: u16,
        jitter: u16,
        offset: u16,
    },
    Sporadic {
        least: u16,
        greatest: u16,
        offset: u16,
    },
}

// Whether an arrival falls in a slot: never, as chosen, or always.
#[derive(Clone, Copy, PartialEq, Eq)]
pub enum Falls {
    Never,
    May,
    Must,
}

impl Kind {
    // Whether an arrival falls in this slot, after those in the past ones.
    pub(crate) fn falls(self, past: &[u32], slot: u32) -> Falls {
        match self {
            Kind::Periodic {
                period,
                jitter,
                offset,
            } => in_stretch(
                u32::from(period),
                u32::from(jitter),
                u32::from(offset),
                past,
                slot,
            ),
            Kind::Sporadic {
                least,
                greatest,
                offset,
            } => match past.last() {
                Some(last) => after_gap(
                    u32::from(least),
                    u32::from(greatest),
                    slot.saturating_sub(*last),
                ),
                None => at_offset(u32::from(offset), slot),
            },
        }
    }
}

// The stretch that the slot lies in or after begins whole periods past the offset, and wants one arrival.
fn in_stretch(period: u32, jitter: u32, offset: u32, past: &[u32], slot: u32) -> Falls
    ensures before { slot < offset → result ≡ Never }
{
    let Some(since) = slot.checked_sub(offset) else {
        return Falls::Never;
    };
    let begin = slot.saturating_sub(since.checked_rem(period).unwrap_or(0));
    let end = begin.saturating_add(jitter);
    if slot > end || any_within(past, begin, end) {
        Falls::Never
    } else if slot < end {
        Falls::May
    } else {
        Falls::Must
    }
}

// Whether one of the slots lies from the first to the last.
pub(crate) fn any_within(slots: &[u32], first: u32, last: u32) -> bool {
    slots.iter().any(|slot| first <= *slot && *slot <= last)
}

// So many slots after the arrival before.
fn after_gap(least: u32, greatest: u32, gap: u32) -> Falls
    ensures early { gap < least → gap < greatest → result ≡ Never }
    ensures between { least ≤ gap → gap < greatest → result ≡ May }
    ensures last { gap ≡ greatest → result ≡ Must }
    ensures past { greatest < gap → result ≡ Never }
{
    if gap == greatest {
        Falls::Must
    } else if least <= gap && gap < greatest {
        Falls::May
    } else {
        Falls::Never
    }
}

// Before the first arrival.
fn at_offset(offset: u32, slot: u32) -> Falls
    ensures first { slot ≡ offset → result ≡ Must }
    ensures elsewhere { (slot ≢ offset) → result ≡ Never }
{
    if slot == offset {
        Falls::Must
    } else {
        Falls::Never
    }
}
