// What a slot does with all tasks.
ghost use Rattle.std.specs.Prelude.{◌≡◌, ◌||◌, true, length, is_some};
ghost use Rattle.slot.specs.Bounded.{bounded};

use crate::state::TaskState;
use outcome::Ended;

// All tasks of a slot: how they stand after it, the job that ended, whether the picked job may choose, and the first late
// task. Unless one is late, work and age keep the deadline limit.
#[derive(Clone, Copy)]
pub struct Round {
    pub tasks: [TaskState; 8],
    pub ended: Option<Ended>,
    pub may_choose: bool,
    pub late: Option<u8>,
    ghost whole: { length tasks ≡ 8 },
    ghost limited: { (is_some late || bounded tasks) ≡ true },
}
