// The lines of a listing, written onto a page.
ghost use Rattle.std.specs.Prelude.{◌≡◌, ◌+◌, ◌≤◌, [], ◌∷◌, ◌++◌, length};
ghost use Rattle.table.specs.View.{table_of, times_of};
ghost use Rattle.listing.specs.Put.{Put, room};
ghost use Rattle.listing.specs.Bringing.{halt_of};
ghost use Rattle.listing.specs.Lines.{time_field, task_line, task_lines, stage_field, stage_line, table_lines, refused_line, halt_lines};

use crate::page::Page;
use crate::part::Halt;
use exploration::{Shown, Stage, Times};
use table::table::Table;

const SPACE: u8 = b' ';

const END: u8 = b'\n';

// The stage in a word. No Display: nothing else in the exported call goes through core::fmt.
fn name(stage: Stage) -> &'static [u8]
    ensures value { result.now ≡ stage_field stage }
    ensures short { length result.now ≤ 8 }
{
    match stage {
        Stage::Walking => b"walking",
        Stage::Complete => b"complete",
        Stage::Late { .. } => b"late",
    }
}

impl Page<'_> {
    // A response time as a field, - for none. Inlined, the exported call has more code.
    #[inline(never)]
    #[tactic(auto, using(crate::proofs::Puts::digits))]
    fn put_time(&mut self, time: Option<Shown>, end: u8)
        requires { 6 ≤ room self.old }
        ensures put { Put (time_field time ++ (end ∷ [])) self.old self.new }
        ensures within { room self.old ≤ room self.new + 6 }
    {
        match time {
            Some(shown) => self.put_number(shown.response as u64, end),
            None => self.put_word(b"-", end),
        }
    }

    // The line of a task: its number, its least and its greatest response time.
    #[tactic(auto, using(crate::proofs::Puts::digits))]
    fn put_task(&mut self, task: u8, times: Times)
        requires { 16 ≤ room self.old }
        ensures put { Put (task_line task times) self.old self.new }
        ensures within { room self.old ≤ room self.new + 16 }
    {
        self.put_number(task as u64, SPACE);
        self.put_time(times.least, SPACE);
        self.put_time(times.greatest, END);
    }

    // The lines of tasks, from the first.
    fn put_tasks(&mut self, times: &[Times])
        requires { (128 ≤ room self.old) × (length times.now ≤ 8) }
        ensures put { Put (task_lines (times_of times.now) (length times.now)) self.old self.new }
        ensures within { room self.old ≤ room self.new + 128 }
    {
        for (i, of_task) in times.iter().enumerate() {
            self.put_task(i as u8 + 1, *of_task);
        }
    }

    // The line of a stage: the rows held and the ways walked; a late table adds the task and the cause.
    #[tactic(auto, using(crate::proofs::Puts::digits))]
    fn put_stage(&mut self, stage: Stage, held: u16, walked: u64)
        requires { 48 ≤ room self.old }
        ensures put { Put (stage_line stage held walked) self.old self.new }
        ensures within { room self.old ≤ room self.new + 48 }
    {
        self.put_word(name(stage), SPACE);
        self.put_number(held as u64, SPACE);
        match stage {
            Stage::Walking | Stage::Complete => self.put_number(walked, END),
            Stage::Late { task, cause, .. } => {
                self.put_number(walked, SPACE);
                self.put_number(task as u64, SPACE);
                self.put_word(&[cause.letter() as u8], END);
            }
        }
    }

    // The lines of a table: a line for each task, and the line of its stage.
    pub fn put_table(&mut self, table: &Table)
        requires { 176 ≤ room self.old }
        ensures put { Put (table_lines (table_of table.now.numbers)) self.old self.new }
        ensures within { room self.old ≤ room self.new + 176 }
    {
        let numbers = table.numbers();
        self.put_tasks(&numbers.times[..numbers.tasks as usize]);
        self.put_stage(numbers.stage, numbers.held, numbers.walked);
    }

    // The line of a refusal: what it ended, its number and its two places.
    #[tactic(auto, using(crate::proofs::Puts::digits))]
    fn put_halt(&mut self, halt: Halt)
        requires { 36 ≤ room self.old }
        ensures put { Put (refused_line halt) self.old self.new }
        ensures within { room self.old ≤ room self.new + 36 }
    {
        let Halt { part, fault } = halt;
        self.put_word(b"refused", SPACE);
        self.put_word(&[part.letter()], SPACE);
        self.put_number(fault.refusal.number() as u64, SPACE);
        self.put_number(fault.at.0 as u64, SPACE);
        self.put_number(fault.at.1 as u64, END);
    }

    // The line of the refusal that ended the work, if one did.
    pub fn put_ending(&mut self, ended: Result<(), Halt>)
        requires { 36 ≤ room self.old }
        ensures put { Put (halt_lines (halt_of ended)) self.old self.new }
        ensures within { room self.old ≤ room self.new + 36 }
    {
        if let Err(halt) = ended {
            self.put_halt(halt);
        }
    }
}
