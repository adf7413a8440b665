// Priority: the greatest priority, and among equals the smaller task number.
use crate::Seen;
use crate::greatest::Keyed;

#[derive(Clone, Copy)]
pub struct Priority;

impl Keyed for Priority {
    ghost key = { λ _ t. t.priority };

    fn key_of(&self, task: &Seen) -> u16 {
        u16::from(task.priority)
    }
}
