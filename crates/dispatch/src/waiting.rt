// Waiting: the greatest age, and among equals the smaller task number.
ghost use Rattle.dispatch.specs.Picks.{waited};

use crate::Seen;
use crate::greatest::Keyed;

#[derive(Clone, Copy)]
pub struct Waiting;

impl Keyed for Waiting {
    ghost key = { λ _. waited };

    fn key_of(&self, task: &Seen) -> u16 {
        task.age.unwrap_or(0)
    }
}
