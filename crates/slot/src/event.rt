// What one slot of a run shows.
use outcome::Ended;

// For each task whether an arrival falls in the slot, the task picked (0 for none, as in the rules), and the job that ended.
#[derive(Clone, Copy, Default)]
pub struct Event {
    pub arrivals: [bool; 8],
    pub picked: u8,
    pub ended: Option<Ended>,
}
