// Equality of task states: exact. By hand, since a derive has no clauses; of states, `State::is` has them.
ghost use Rattle.std.specs.Prelude.{◌≡◌, Decides};
ghost use Rattle.slot.specs.Same.{same_task, tasks_per};

use crate::state::TaskState;

impl PartialEq for TaskState {
    ghost eq = { same_task };

    ghost laws = { tasks_per };

    fn eq(&self, other: &TaskState) -> bool
        ensures value { result ≡ same_task self.now other.now }
        ensures exact { Decides result (self.now ≡ other.now) }
    {
        self.position == other.position && self.job == other.job
    }
}
