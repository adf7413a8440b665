// A state: where each stream stands, each task's job, and the last runner.
ghost use Rattle.std.specs.Prelude.{◌≡◌, true, length, Decides};
ghost use Rattle.slot.specs.Bounded.{bounded};

// A job that arrived and has not ended: the slots of work done, and its age in slots.
#[derive(Clone, Copy, PartialEq, Eq, Hash, Debug)]
pub struct Job {
    pub work: u16,
    pub age: u16,
}

// One task's part of a state: its stream's position, and its job if it has one.
#[derive(Clone, Copy, Eq, Hash, Debug, Default)]
pub struct TaskState {
    pub position: u16,
    pub job: Option<Job>,
}

// The last runner is the task picked in the slot before if its job stayed, else 0: the number that stands for no task in the rules, too.
// Work and age keep the deadline limit.
#[derive(Clone, Copy, PartialEq, Eq, Hash, Debug)]
pub struct State {
    pub tasks: [TaskState; 8],
    pub last: u8,
    ghost whole: { length tasks ≡ 8 },
    ghost limited: { bounded tasks ≡ true },
}

impl State {
    ghost use Rattle.slot.specs.Slot.{state_view};
    ghost use Rattle.slot.specs.Same.{same_state};

    // What `==` says, with the clauses that a derive cannot have: whether two states are one, by every position, every job and the last runner.
    pub fn is(&self, other: &State) -> bool
        ensures value { result ≡ same_state (state_view self.now) (state_view other.now) }
        ensures exact { Decides result (state_view self.now ≡ state_view other.now) }
    {
        *self == *other
    }
}
