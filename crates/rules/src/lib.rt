// The dispatch rules that a user can name, as one rule.
#![tactic(auto)]

ghost use Rattle.std.specs.Prelude.{Some};
ghost use Rattle.rules.specs.Named.{picks_of, name_of, IsNamed, none_of};
ghost use Rattle.dispatch.specs.Picks.{by_priority, by_age, waited};
ghost use Rattle.dispatch.specs.Jobs.{greatest_conserves, keeping_conserves};
ghost use Rattle.rules.specs.declared.Rule.TheVariants.{Priority, Waiting, KeepingPriority, KeepingWaiting};

use dispatch::keeping::Keeping;
use dispatch::priority::Priority as ByPriority;
use dispatch::waiting::Waiting as ByAge;
use dispatch::{Dispatch, Seen};
use std::error::Error;
use std::fmt;
use std::str::FromStr;

#[derive(Clone, Copy, PartialEq, Eq, Debug)]
pub enum Rule {
    Priority,
    Waiting,
    KeepingPriority,
    KeepingWaiting,
}

// A name that no rule has.
#[derive(Clone, Copy, PartialEq, Eq, Debug)]
pub struct NoSuchRule;

// The rule of a name.
impl FromStr for Rule {
    type Err = NoSuchRule;

    ghost from_str_gives = { IsNamed };

    fn from_str(name: &str) -> Result<Rule, NoSuchRule> {
        match name {
            "priority" => Ok(Rule::Priority),
            "waiting" => Ok(Rule::Waiting),
            "keeping-priority" => Ok(Rule::KeepingPriority),
            "keeping-waiting" => Ok(Rule::KeepingWaiting),
            _ => Err(NoSuchRule),
        }
    }
}

// A rule is shown by its name.
impl fmt::Display for Rule {
    ghost output = { λ rule. Some (name_of rule) };

    fn fmt<W: fmt::Write>(&self, f: &mut fmt::Formatter<W>) -> fmt::Result {
        f.write_str(match self {
            Rule::Priority => "priority",
            Rule::Waiting => "waiting",
            Rule::KeepingPriority => "keeping-priority",
            Rule::KeepingWaiting => "keeping-waiting",
        })
    }
}

// What the rules are called.
impl fmt::Display for NoSuchRule {
    ghost output = { λ _. Some none_of };

    fn fmt<W: fmt::Write>(&self, f: &mut fmt::Formatter<W>) -> fmt::Result {
        write!(
            f,
            "the rules are priority, waiting, keeping-priority and keeping-waiting"
        )
    }
}

impl Error for NoSuchRule {}

// An enum, and no dyn: a rule is chosen at run time, and a function may not make a dyn and hand it out.
impl Dispatch for Rule {
    ghost picks = { picks_of };

    ghost conserves = { elim [
      | Priority ↦ greatest_conserves (λ t. t.priority)
      | Waiting ↦ greatest_conserves waited
      | KeepingPriority ↦ keeping_conserves by_priority (greatest_conserves (λ t. t.priority))
      | KeepingWaiting ↦ keeping_conserves by_age (greatest_conserves waited)
    ] };

    fn pick(&self, tasks: &[Seen], last: usize) -> usize {
        match self {
            Rule::Priority => ByPriority.pick(tasks, last),
            Rule::Waiting => ByAge.pick(tasks, last),
            Rule::KeepingPriority => Keeping { below: ByPriority }.pick(tasks, last),
            Rule::KeepingWaiting => Keeping { below: ByAge }.pick(tasks, last),
        }
    }
}
