// What a slot of the peer comes to, and what it shows.
use crate::scheduler::Peer;
use outcome::{Cause, Ended};
use std::fmt;

// How often something was late, by cause.
#[derive(Clone, Copy, Default)]
pub struct Lates {
    pub overlap: u32,
    pub deadline: u32,
}

impl Lates {
    pub(crate) fn count(&mut self, cause: Cause) {
        let times = match cause {
            Cause::Overlap => &mut self.overlap,
            Cause::Deadline => &mut self.deadline,
        };
        *times = times.saturating_add(1);
    }
}

impl fmt::Display for Lates {
    fn fmt<W: fmt::Write>(&self, f: &mut fmt::Formatter<W>) -> fmt::Result {
        let Lates { overlap, deadline } = *self;
        write!(f, "overlap {overlap}, deadline {deadline}")
    }
}

// The job that ended: its task, and its response time in slots. The peer counts slots in u32, apart from the library's types.
#[derive(Clone, Copy, PartialEq, Eq, Debug)]
pub struct Done {
    pub task: u8,
    pub response: u32,
}

impl From<Ended> for Done {
    fn from(job: Ended) -> Done {
        Done {
            task: job.task,
            response: u32::from(job.response),
        }
    }
}

// The tasks with an arrival, the task picked, and the job that ended.
#[derive(Drop)]
pub struct Shown {
    pub arrivals: Vec<u8>,
    pub picked: Option<u8>,
    pub ended: Option<Done>,
}

#[derive(Drop)]
pub enum PeerOutcome {
    Void,
    Late {
        task: u8,
        cause: Cause,
        shown: Shown,
    },
    Next {
        peer: Peer,
        shown: Shown,
    },
}

impl PeerOutcome {
    // The job that ended.
    pub(crate) fn ended(&self) -> Option<Done> {
        match self {
            PeerOutcome::Void => None,
            PeerOutcome::Late { shown, .. } => shown.ended,
            PeerOutcome::Next { shown, .. } => shown.ended,
        }
    }
}
