// What a replay shows, as lines of text.
use outcome::Ended;
use slot::event::Event;
use std::fmt;

// One slot's line: its number, which tasks arrived, which ran, and which job ended with what response.
#[derive(Drop)]
pub struct SlotLine {
    pub slot: usize,
    pub event: Event,
}

impl fmt::Display for SlotLine {
    fn fmt<W: fmt::Write>(&self, f: &mut fmt::Formatter<W>) -> fmt::Result {
        let slot = self.slot;
        write!(f, "slot {slot}: ")?;
        arrivals(f, &self.event.arrivals)?;
        ran(f, self.event.picked)?;
        ended(f, self.event.ended)
    }
}

fn arrivals<W: fmt::Write>(f: &mut fmt::Formatter<W>, tasks: &[bool; 8]) -> fmt::Result {
    if !tasks.contains(&true) {
        return write!(f, "no arrival");
    }
    write!(f, "arrived")?;
    for (i, arrives) in tasks.iter().enumerate() {
        if *arrives {
            let task = i + 1;
            write!(f, " {task}")?;
        }
    }
    Ok(())
}

// An event's pick is 0 for none, as the rules have it.
fn ran<W: fmt::Write>(f: &mut fmt::Formatter<W>, picked: u8) -> fmt::Result {
    if picked == 0 {
        write!(f, ", none ran")
    } else {
        write!(f, ", ran {picked}")
    }
}

fn ended<W: fmt::Write>(f: &mut fmt::Formatter<W>, job: Option<Ended>) -> fmt::Result {
    match job {
        Some(Ended { task, response }) => write!(f, ", ended {task} with response {response}"),
        None => Ok(()),
    }
}

// One task's line: the responses of its jobs that the slots showed.
#[derive(Drop)]
pub struct ResponsesLine<'a> {
    pub task: u8,
    pub events: &'a [Event],
}

impl ResponsesLine<'_> {
    fn response(&self, event: &Event) -> Option<u16> {
        let ended = event.ended?;
        (ended.task == self.task).then_some(ended.response)
    }
}

impl fmt::Display for ResponsesLine<'_> {
    fn fmt<W: fmt::Write>(&self, f: &mut fmt::Formatter<W>) -> fmt::Result {
        let task = self.task;
        write!(f, "task {task}: responses")?;
        if !self
            .events
            .iter()
            .any(|event| self.response(event).is_some())
        {
            return write!(f, " none");
        }
        for response in self.events.iter().filter_map(|event| self.response(event)) {
            write!(f, " {response}")?;
        }
        Ok(())
    }
}
