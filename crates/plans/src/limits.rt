// The limits of a plan's numbers.

// The greatest worst execution time, in slots.
pub const WORST_LIMIT: u16 = 1000;

// The greatest deadline, in slots: no job that stands has more work or age.
pub const DEADLINE_LIMIT: u16 = 1023;
