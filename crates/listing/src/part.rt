// What a listing was doing when a refusal ended it.
ghost use Rattle.std.specs.Prelude.{◌≡◌};
ghost use Rattle.listing.specs.Parts.{part_letter};

use refusals::Fault;

// Reading the plan and opening the table, taking evidence, or stepping; each by its letter.
#[derive(Clone, Copy, PartialEq, Eq, Debug)]
pub enum Part {
    Plan = b'P' as isize,
    Evidence = b'E' as isize,
    Steps = b'S' as isize,
}

// The refusal that ended it, and what it was doing.
#[derive(Clone, Copy, PartialEq, Eq, Debug)]
pub struct Halt {
    pub part: Part,
    pub fault: Fault,
}

impl Part {
    // The part as a letter: P, E or S.
    pub fn letter(self) -> u8
        ensures { result ≡ part_letter self }
    {
        self as u8
    }

    // A refusal that ended the listing here.
    pub fn halts(self, fault: Fault) -> Halt
        ensures { result ≡ record { part = self; fault = fault } }
    {
        Halt { part: self, fault }
    }
}
