// Reading a table that is kept for a system in these rows.
#![tactic(auto, using(crate::proofs::Law::kept_law))]

ghost use Rattle.std.specs.Prelude.{◌≡◌};
ghost use Rattle.table.specs.Readings.{times_read, origin_read};
ghost use Rattle.evidence.specs.Opening.{ReadsKept};

use exploration::{Row, Times};
use refusals::Fault;
use table::numbers::Numbers;
use table::system::System;
use table::table::Table;

// The table's own numbers.
pub fn numbers<S: System>(table: &Table, system: &S, rows: &[Row<S::State>]) -> Numbers
    ensures value { result ≡ table.now.numbers }
    ensures law { ReadsKept S.System.view (S.System.rules system.now) table.now.numbers rows.now }
{
    table.numbers()
}

// The least and the greatest response time of a task, each with the row and way that first showed it.
pub fn times<S: System>(
    table: &Table,
    system: &S,
    rows: &[Row<S::State>],
    task: u8,
) -> Result<Times, Fault>
    ensures value { result ≡ times_read table.now.numbers task }
    ensures law { ReadsKept S.System.view (S.System.rules system.now) table.now.numbers rows.now }
{
    table.times(task)
}

// The row and the way that a row came from.
// The start's origin is row 0 and way 0, as docs/RULES.md has it: no Option.
pub fn origin<S: System>(
    table: &Table,
    system: &S,
    rows: &[Row<S::State>],
    row: u32,
) -> Result<(u16, u32), Fault>
    ensures value { result ≡ origin_read table.now.numbers rows.now row }
    ensures law { ReadsKept S.System.view (S.System.rules system.now) table.now.numbers rows.now }
{
    table.origin(rows, row)
}
