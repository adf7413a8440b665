// The numbers of a task, by name.
ghost use Rattle.std.specs.Prelude.{◌≡◌};
ghost use Rattle.plans.specs.Fields.{field_offset};

// A number of a task that is out of bounds, by where it stands in a plan record.
#[derive(Clone, Copy, PartialEq, Eq, Debug)]
pub enum Field {
    Priority = 1,
    Best = 2,
    Worst = 4,
    Deadline = 6,
}

impl Field {
    // Where the number stands in a plan record.
    pub fn offset(self) -> u32
        ensures { result ≡ field_offset self }
    {
        self as u32
    }
}
