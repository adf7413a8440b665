// The library's plans and answers, as the peer has them.
use crate::falls::Kind;
use crate::order::Numbers;
use plans::plan::Plan;
use slot::state::Job;
use std::test::*;
use streams::either::Either;
use streams::parameter::Parameter;
use streams::periodic::Periodic;
use streams::sporadic::Sporadic;

pub type Streams = Either<Periodic, Sporadic>;

impl TryFrom<Kind> for Streams {
    type Error = Parameter;

    fn try_from(kind: Kind) -> Result<Streams, Parameter> {
        match kind {
            Kind::Periodic {
                period,
                jitter,
                offset,
            } => Ok(Either::Left(Periodic::new(period, jitter, offset)?)),
            Kind::Sporadic {
                least,
                greatest,
                offset,
            } => Ok(Either::Right(Sporadic::new(least, greatest, offset)?)),
        }
    }
}

// The plan of these tasks.
pub(crate) fn plan_of(tasks: &[Numbers]) -> Result<Plan<Streams>, Fail> {
    let mut plan = Plan::new();
    for t in tasks {
        plan.add_task(
            Streams::try_from(t.kind)?,
            t.priority,
            t.best,
            t.worst,
            t.deadline,
        )?;
    }
    Ok(plan)
}

// The work and the age of a job.
pub(crate) fn work_and_age(job: Job) -> (u32, u32) {
    (u32::from(job.work), u32::from(job.age))
}
