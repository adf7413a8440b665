// A plan: up to eight tasks, each with its stream.
ghost use Rattle.std.specs.Prelude.{◌≡◌, ◌≤◌, true, length};
ghost use Rattle.plans.specs.Limits.{worst_limit, deadline_limit};
ghost use Rattle.plans.specs.Packed.{packed};

// A task's numbers: its priority, its best and worst execution time, and its deadline, all but the first in slots.
#[derive(Clone, Copy)]
pub struct Times {
    pub priority: u8,
    pub best: u16,
    pub worst: u16,
    pub deadline: u16,
    ghost ranked: { 1 ≤ priority },
    ghost some: { 1 ≤ best },
    ghost order: { best ≤ worst },
    ghost short: { worst ≤ worst_limit },
    ghost fit: { worst ≤ deadline },
    ghost soon: { deadline ≤ deadline_limit },
}

#[derive(Drop)]
pub struct Task<S> {
    pub stream: S,
    pub times: Times,
}

// The tasks stand in the first places; a task's number is its place, from 1.
// An array, since the box has no heap; the kit's ArrayVec wants a blank task for each free place, and there is no blank stream.
#[derive(Drop)]
pub struct Plan<S> {
    pub tasks: [Option<Task<S>>; 8],
    ghost whole: { length tasks ≡ 8 },
    ghost filled: { packed tasks ≡ true },
}
