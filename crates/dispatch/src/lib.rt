// Dispatch rules: which task runs in a slot.
#![tactic(auto)]

ghost use Rattle.std.specs.Prelude.{◌≡◌};
ghost use Rattle.dispatch.specs.Picks.{Picks, WorkConserving};

mod greatest;
pub mod keeping;
pub mod priority;
pub mod waiting;

// What a rule sees of a task: its priority, and the age of its job if it has one.
#[derive(Clone, Copy, Default)]
pub struct Seen {
    pub priority: u8,
    pub age: Option<u16>,
}

// A dispatch rule. Its meaning is the task that it picks, numbered from 1, or 0 for none.
// No Option: the rules give 'no task' the number 0, and the laws over runs, the state's last runner and the event's pick say it so.
pub trait Dispatch {
    ghost picks: { Self → Picks };

    fn pick(&self, tasks: &[Seen], last: usize) -> usize
        ensures { result ≡ picks self.now tasks.now last };

    ghost conserves: { (d : Self) → WorkConserving (picks d) };
}
