// The job with the greatest key, and among equals that of the smaller task number.
ghost use Rattle.std.specs.Prelude.{◌≡◌, ℕ, ◌&&◌, ◌||◌, is_some, ◌==◌, nat_lt};
ghost use Rattle.dispatch.specs.declared.Seen.{Seen};
ghost use Rattle.dispatch.specs.Picks.{greatest};
ghost use Rattle.dispatch.specs.Order.{Before, FirstJob, key_of};
ghost use Rattle.dispatch.specs.Jobs.{greatest_conserves};

use crate::{Dispatch, Seen};

// What a rule compares tasks by.
pub trait Keyed {
    ghost key: { Self → Seen → ℕ };

    fn key_of(&self, task: &Seen) -> u16
        ensures { result ≡ key self.now task.now };
}

// A key makes a rule: the first job under the order by the key, or 0.
impl<K: Keyed> Dispatch for K {
    ghost picks = { λ k. greatest (K.Keyed.key k) };

    ghost conserves = { λ k. greatest_conserves (K.Keyed.key k) };

    fn pick(&self, tasks: &[Seen], last: usize) -> usize
        ensures value { result ≡ greatest (K.Keyed.key self.now) tasks.now last }
        ensures first { FirstJob (Before (key_of (K.Keyed.key self.now) tasks.now)) tasks.now result }
    {
        first_job(self, tasks)
    }
}

// The first job under the order by the rule's key, or 0. The best so far is the answer so far, so it is 0 for none, too.
fn first_job<K: Keyed>(rule: &K, tasks: &[Seen]) -> usize
    ensures value { result ≡ greatest (K.Keyed.key rule.now) tasks.now 0 }
    ensures first { FirstJob (Before (key_of (K.Keyed.key rule.now) tasks.now)) tasks.now result }
{
    let mut task = 0;
    let mut rank = 0;
    for (i, t) in tasks.iter().enumerate() {
        let mine = rule.key_of(t);
        if takes_over(t.age, mine, task, rank) {
            task = i + 1;
            rank = mine;
        }
    }
    task
}

// Whether a task takes over from the best so far: it has a job, and there was none or its key is greater.
fn takes_over(age: Option<u16>, mine: u16, task: usize, rank: u16) -> bool
    ensures { result ≡ (is_some age && (task == 0 || nat_lt rank mine)) }
{
    age.is_some() && (task == 0 || rank < mine)
}
