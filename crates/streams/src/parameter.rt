// The parameters of the kinds of stream, and the limit that they keep.

// No offset, period or gap is longer.
pub const SLOT_LIMIT: u16 = 4000;

// A parameter that is at fault.
#[derive(Clone, Copy, PartialEq, Eq, Debug)]
pub enum Parameter {
    Offset,
    Period,
    Jitter,
    LeastGap,
    GreatestGap,
}
