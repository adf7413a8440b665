// Plan records: 24 bytes for a task.
ghost use Rattle.std.specs.Prelude.{◌≡◌, ◌+◌, ◌<◌, ◌==◌, not, length, drop, Some, None, MatchResult, OnErr};
ghost use Rattle.std.specs.List.{position};
ghost use Rattle.std.specs.Result.{result_ok};
ghost use Rattle.plans.specs.Tasks.{task_view, task_views};
ghost use Rattle.plans.specs.Fields.{parameter_offset};
ghost use Rattle.plans.specs.Adding.{Added};
ghost use Rattle.plans.specs.Record.{kind_meaning, letter_of, word as word_at, stream_fault, stream_meaning, first_nonzero, read_record, Reads, read_plan, ReadsPlan};

use crate::plan::{Plan, Task, Times};
use refusals::{Fault, Refusal};
use streams::either::Either;
use streams::parameter::Parameter;
use streams::periodic::Periodic;
use streams::sporadic::Sporadic;

// The stream of a task that a record names: of kind P or of kind S.
pub type Kind = Either<Periodic, Sporadic>;

// The letter of a kind.
#[derive(Clone, Copy, PartialEq, Eq, Debug)]
pub enum Letter {
    P,
    S,
}

// A byte that is no kind's letter.
#[derive(Clone, Copy, PartialEq, Eq, Debug)]
pub struct NoLetter;

// Byte 0 of a record chooses the kind.
impl TryFrom<u8> for Letter {
    type Error = NoLetter;

    ghost try_from_gives = { λ byte letter. result_ok letter ≡ letter_of byte };

    fn try_from(byte: u8) -> Result<Letter, NoLetter> {
        match byte as char {
            'P' => Ok(Letter::P),
            'S' => Ok(Letter::S),
            _ => Err(NoLetter),
        }
    }
}

// The number of the two bytes at an offset, the lesser first.
fn word(bytes: &[u8], at: usize) -> u16
    requires { at + 1 < length bytes.now }
    ensures { result ≡ word_at bytes.now at }
{
    u16::from_le_bytes([bytes[at], bytes[at + 1]])
}

// The stream of a kind by its offset and its two other parameters, or the first parameter out of bounds.
fn stream(kind: Letter, offset: u16, first: u16, second: u16) -> Result<Kind, Parameter>
    ensures { MatchResult result (λ s. (stream_fault kind offset first second ≡ None) × (kind_meaning s ≡ stream_meaning kind offset first second)) (λ p. stream_fault kind offset first second ≡ Some p) }
{
    match kind {
        Letter::P => Ok(Either::Left(Periodic::new(first, second, offset)?)),
        Letter::S => Ok(Either::Right(Sporadic::new(first, second, offset)?)),
    }
}

// Where a parameter stands in a record. A match, unlike `Field::offset`: streams know nothing of records, and two parameters share a place.
fn offset_of(parameter: Parameter) -> u32
    ensures { result ≡ parameter_offset parameter }
{
    match parameter {
        Parameter::Offset => 8,
        Parameter::Period | Parameter::LeastGap => 10,
        Parameter::Jitter | Parameter::GreatestGap => 12,
    }
}

// The index of the first byte that is not 0.
fn first_set(bytes: &[u8]) -> Option<usize>
    ensures { result ≡ position (λ b. not (b == 0)) bytes.now }
{
    bytes.iter().position(|byte| *byte != 0)
}

// The first of the bytes from 14 on that is not 0.
fn nonzero(bytes: &[u8]) -> Option<u32>
    requires { length bytes.now ≡ 24 }
    ensures { result ≡ first_nonzero 14 (drop 14 bytes.now) }
{
    first_set(&bytes[14..]).map(|i| 14 + i as u32)
}

// The task of a record, or the first fault: its length, its letter, the task's numbers, the stream's, the bytes that are 0.
fn read(bytes: &[u8], number: u32) -> Result<Task<Kind>, Fault>
    ensures { Reads result (read_record number bytes.now) }
{
    if bytes.len() != 24 {
        return Err(Refusal::RecordLength.at(number, 0));
    }
    let kind = Letter::try_from(bytes[0]).map_err(|_| Refusal::Kind.at(number, 0))?;
    let times = Times::new(bytes[1], word(bytes, 2), word(bytes, 4), word(bytes, 6)).map_err(
        |field| Refusal::TaskBounds.at(number, field.offset()),
    )?;
    let stream = stream(kind, word(bytes, 8), word(bytes, 10), word(bytes, 12)).map_err(
        |parameter| Refusal::StreamBounds.at(number, offset_of(parameter)),
    )?;
    match nonzero(bytes) {
        Some(at) => Err(Refusal::ZeroBytes.at(number, at)),
        None => Ok(Task { stream, times }),
    }
}

impl Plan<Kind> {
    // The task of a record more: refused with the first fault of the record, or if the plan has eight.
    pub fn add_record(&mut self, bytes: &[u8]) -> Result<(), Fault>
        ensures added { Added (task_views kind_meaning self.old.tasks) (task_views kind_meaning self.new.tasks) (read_record (length (task_views kind_meaning self.old.tasks) + 1) bytes.now) result }
        ensures same { OnErr result (self.new ≡ self.old) }
    {
        let task = read(bytes, self.count() as u32 + 1)?;
        self.put(task)
    }

    // The plan of all records in these bytes, each of 24 bytes and a shorter rest the last, or the first refusal.
    pub fn from_bytes(bytes: &[u8]) -> Result<Plan<Kind>, Fault>
        ensures { ReadsPlan result (read_plan bytes.now) }
    {
        let mut plan = Plan::new();
        for record in bytes.chunks(24) {
            plan.add_record(record)?;
        }
        Ok(plan)
    }
}
