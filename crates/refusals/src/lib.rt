// The refusals: why a call was refused, and where.
#![tactic(auto)]

ghost use Rattle.std.specs.Prelude.{◌≡◌, Some};
ghost use Rattle.refusals.specs.Refusals.{number_of, meaning_of, OneToOne, text_of};

use std::error::Error;
use std::fmt;

// Why a call was refused.
#[derive(Clone, Copy, PartialEq, Eq, Debug)]
pub enum Refusal {
    RecordLength = 1,
    Kind = 2,
    TaskBounds = 3,
    StreamBounds = 4,
    ZeroBytes = 5,
    PlanFull = 6,
    PlanEmpty = 7,
    RowCount = 8,
    Length = 9,
    Letters = 10,
    Closed = 11,
    RowNotHeld = 12,
    NoSuchWay = 13,
    WayVoidOrLate = 14,
    StateHeld = 15,
    NoRowLeft = 16,
    NotNext = 17,
    OutcomeWrong = 18,
    NoSuchTask = 19,
}

impl Refusal {
    // The refusal's number, from 1 to 19. Two refusals of one number are the same.
    pub fn number(self) -> u8
        ensures value { result ≡ number_of self }
        ensures one_to_one { OneToOne }
    {
        self as u8
    }

    // The refusal with two place numbers: a record and an offset, a row and a way, or a task and 0.
    pub fn at(self, first: u32, second: u32) -> Fault
        ensures { result ≡ record { refusal = self; at = (first, second) } }
    {
        Fault {
            refusal: self,
            at: (first, second),
        }
    }

    // The refusal in words.
    pub fn meaning(self) -> &'static str
        ensures { result.now ≡ meaning_of self }
    {
        match self {
            Refusal::RecordLength => "plan record is not 24 bytes",
            Refusal::Kind => "byte 0 is not P or S",
            Refusal::TaskBounds =>
                "priority, best or worst execution time, or deadline out of bounds",
            Refusal::StreamBounds => "offset, period, jitter or gap out of bounds",
            Refusal::ZeroBytes => "a byte that must be zero is not",
            Refusal::PlanFull => "plan has eight tasks already",
            Refusal::PlanEmpty => "plan has no task",
            Refusal::RowCount =>
                "number of rows is none or over 65535 at open, or later not as many",
            Refusal::Length =>
                "evidence record is not 16 bytes, step place under 32 or listing place under 512",
            Refusal::Letters => "evidence letters or zero bytes are wrong",
            Refusal::Closed => "table is complete or late",
            Refusal::RowNotHeld => "row is not held",
            Refusal::NoSuchWay => "row has no such way",
            Refusal::WayVoidOrLate => "way is void or late",
            Refusal::StateHeld => "state is already held",
            Refusal::NoRowLeft => "state is new, but no row is left",
            Refusal::NotNext => "not the next row and way",
            Refusal::OutcomeWrong => "outcome is wrong",
            Refusal::NoSuchTask => "task is not in the plan as opened",
        }
    }
}

// A refusal with the two place numbers that say where.
#[derive(Clone, Copy, PartialEq, Eq, Debug)]
pub struct Fault {
    pub refusal: Refusal,
    pub at: (u32, u32),
}

// A refusal at no place in particular.
impl From<Refusal> for Fault {
    ghost from_gives = { λ why f. f ≡ record { refusal = why; at = (0, 0) } };

    fn from(why: Refusal) -> Fault {
        why.at(0, 0)
    }
}

impl Error for Fault {}

impl fmt::Display for Fault {
    ghost output = { λ f. Some (text_of f) };

    fn fmt<W: fmt::Write>(&self, f: &mut fmt::Formatter<W>) -> fmt::Result {
        let number = self.refusal.number();
        let (a, b) = self.at;
        let meaning = self.refusal.meaning();
        write!(f, "refused {number} {a} {b}: {meaning}")
    }
}
