// Rows as they are lent: an array of numbers for each, those of its lines first, with room for the most points, and then
// its switch.
ghost use Rattle.std.specs.Prelude.{◌≡◌, ◌++◌, ◌*◌, ◌≤◌, ◌==◌, length, drop, position, slice_index_or};
ghost use Rattle.curves.specs.Curves.{well_formed};
ghost use Rattle.rows.specs.Rows.{task_at, max_ticks, cost, in_range, has_task};
ghost use Rattle.rows.specs.inside.Numbers.{field_count, row_from, rows_of, positions_for};
ghost use Rattle.rows.specs.inside.Lent.{table_of};

use super::numbers::{FIELDS, FIRST_POINT, POINTS, SWITCH, TASK, WORST};
use super::{Row, full_cost};
use curves::{POINTS_MAX, points_from, well_formed};

// The numbers of a row, with names for their places (numbers.rt) and no struct: they are the reader's numbers, lent as they
// stand, and records would have to be made anew (docs/DECISIONS.md, "Rows are lent as arrays of their numbers").
pub type RowNumbers = [u64; FIELDS];

// The first n rows of some numbers: the reader, and the calls that take numbers, have the count of the rows beside them,
// and the rows that are lent have it within.
pub fn rows_from(numbers: &[u64], n: usize) -> &[RowNumbers]
    requires { field_count * n ≤ length numbers.now }
    ensures table { table_of result.now ≡ rows_of n numbers.now }
    ensures count { length result.now ≡ n }
{
    let (rows, _) = numbers[..FIELDS * n].as_chunks::<FIELDS>();
    rows
}

// Whether the curve of a row is well formed: one of more points than a row has room for is not.
fn curve_keeps(row: &RowNumbers) -> bool
    ensures { result ≡ well_formed (row_from row.now).curve }
{
    if POINTS_MAX < row[POINTS] {
        return false;
    }
    well_formed(points_from(&row[FIRST_POINT..SWITCH], row[POINTS] as usize))
}

// Whether a row is in range.
pub fn in_range(row: &RowNumbers) -> bool
    ensures { result ≡ in_range (row_from row.now) }
{
    Row::keeps(row) & curve_keeps(row)
}

// The most ticks that a job of a row takes.
pub fn cost(row: &RowNumbers) -> u64
    requires { cost (row_from row.now) ≤ max_ticks }
    ensures { result ≡ cost (row_from row.now) }
{
    full_cost(row[WORST], row[SWITCH])
}

// Whether one of some rows has a task.
pub fn has_task(rows: &[RowNumbers], task: u64) -> bool
    ensures { result ≡ has_task task (table_of rows.now) }
{
    rows.iter().any(|row| row[TASK] == task)
}

// Where a task stands among rows, if it does.
fn position_of(task: u16, rows: &[RowNumbers]) -> Option<usize>
    ensures { result ≡ position (λ row. slice_index_or row task_at 0 == task) rows.now }
{
    let sought = task as u64;
    rows.iter().position(|row| row[TASK] == sought)
}

// Where each of some tasks stands among the rows; their number where one does not, as the definition `position_of` has it.
// By the index k: a `zip` is no plainer, and its invariant is over two iterators in place of one index.
pub fn positions_for(tasks: &[u16], rows: &[RowNumbers], positions: &mut [usize])
    requires { length tasks.now ≤ length positions.old }
    ensures { positions.new ≡ positions_for tasks.now (table_of rows.now) ++ drop (length tasks.now) positions.old }
{
    for (k, task) in tasks.iter().enumerate() {
        positions[k] = position_of(*task, rows).unwrap_or(rows.len());
    }
}
