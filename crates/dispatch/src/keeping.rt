// Keeping: the last runner if it has a job, and else what the rule below picks.
ghost use Rattle.std.specs.Prelude.{◌≡◌, true, false};
ghost use Rattle.dispatch.specs.Picks.{has_job, keeping};
ghost use Rattle.dispatch.specs.Jobs.{keeping_conserves};

use crate::{Dispatch, Seen};

#[derive(Clone, Copy)]
pub struct Keeping<R> {
    pub below: R,
}

impl<R: Dispatch> Dispatch for Keeping<R> {
    ghost picks = { λ k. keeping (R.Dispatch.picks k.below) };

    ghost conserves = { λ k. keeping_conserves (R.Dispatch.picks k.below) (R.Dispatch.conserves k.below) };

    fn pick(&self, tasks: &[Seen], last: usize) -> usize
        ensures value { result ≡ keeping (R.Dispatch.picks self.now.below) tasks.now last }
        ensures keeps { has_job tasks.now last ≡ true → result ≡ last }
        ensures else_below { has_job tasks.now last ≡ false → result ≡ R.Dispatch.picks self.now.below tasks.now last }
    {
        if stays(tasks, last) {
            last
        } else {
            self.below.pick(tasks, last)
        }
    }
}

// Whether the last runner has a job.
#[tactic(auto, using(crate::specs::Jobs::has_job_at, crate::specs::Jobs::job_read, crate::specs::Jobs::job_past))]
fn stays(tasks: &[Seen], last: usize) -> bool
    ensures { result ≡ has_job tasks.now last }
{
    last > 0 && tasks.get(last - 1).is_some_and(|task| task.age.is_some())
}
