// Rows and orders as numbers: of a row those of its lines come first, with room for the most points, and then the
// switch; and row follows row.
ghost use Rattle.std.specs.Prelude.{◌≡◌, ◌++◌, [], ◌∷◌, ◌≤◌, length};
ghost use Rattle.basics.specs.Basics.{is_in};
ghost use Rattle.rows.specs.Rows.{max_tasks};
ghost use Rattle.rows.specs.inside.Arrays.{ranking};
ghost use Rattle.rows.specs.inside.Numbers.{TaskNumbers};
ghost use Rattle.rows.specs.inside.Records.{as_row, as_rows, record_numbers, RowPut, RowsPut};

use super::lent::RowNumbers;
use super::{MAX_TASKS, Order, Row};
use curves::MAX_POINTS;

// Where the number of each line stands among those of its row.
pub const TASK: usize = 0;

pub const PERIOD: usize = 1;

pub const DEADLINE: usize = 2;

pub const WORST: usize = 3;

pub const BEST: usize = 4;

pub const ALPHA: usize = 5;

pub const BETA: usize = 6;

pub const HOLD: usize = 7;

pub const POINTS: usize = 8;

pub const FIRST_POINT: usize = 9;

// The numbers of the most points.
pub const CURVE: usize = 2 * MAX_POINTS;

// The most lines of a row; where its switch stands, behind their numbers; and how many numbers a row has room for.
pub const SWITCH: usize = FIRST_POINT + CURVE;

pub const FIELDS: usize = SWITCH + 1;

// Room for the numbers of a table's rows.
pub const NUMBERS: usize = FIELDS * MAX_TASKS;

// The numbers of a row: those of its lines before its points, those of its points, and its switch.
pub(crate) fn row_numbers(
    lines: [u64; FIRST_POINT],
    curve: &[u64; CURVE],
    switch: u64,
) -> RowNumbers
    ensures { result ≡ lines ++ (curve.now ++ (switch ∷ [])) }
{
    // the switch is left behind what is written before it
    let mut numbers = [switch; FIELDS];
    numbers[..FIRST_POINT].copy_from_slice(&lines);
    numbers[FIRST_POINT..SWITCH].copy_from_slice(curve);
    numbers
}

// The numbers of a record.
fn record_numbers(row: &Row) -> RowNumbers
    ensures { result ≡ record_numbers row.now }
{
    let lines = [
        row.task as u64,
        row.period as u64,
        row.deadline as u64,
        row.worst as u64,
        row.best as u64,
        row.alpha as u64,
        row.beta,
        row.hold as u64,
        row.points,
    ];
    row_numbers(lines, &row.curve, row.switch as u64)
}

// Row i is put among the numbers, if there is room for it. `as_chunks_mut` would lend the room of each row, but no contract
// says what the numbers are after it.
fn put_row(numbers: &mut [u64; NUMBERS], i: usize, row: &Row)
    ensures { RowPut numbers.old i (as_row row.now) numbers.new }
{
    if i < MAX_TASKS {
        let at = FIELDS * i;
        numbers[at..at + FIELDS].copy_from_slice(&record_numbers(row));
    }
}

// The rows are put among the numbers, one after another: all of them if there is room for all. For callers who have rows
// as records, the form that document 01 names.
pub fn put_rows(rows: &[Row], numbers: &mut [u64; NUMBERS])
    ensures { RowsPut (as_rows rows.now) numbers.old numbers.new }
{
    for (i, row) in rows.iter().enumerate() {
        put_row(numbers, i, row);
    }
}

// Whether a value is among some numbers: it ties the library's method to the definition that proofs cite.
pub fn is_among(numbers: &[u64], value: u64) -> bool
    ensures { result ≡ is_in value numbers.now }
{
    numbers.contains(&value)
}

// The order of some task numbers. That they are tasks' (`TaskNumbers`) is a clause: it is said of some of a table's numbers
// only. By the index, as in `positions_for`.
pub fn order_from(tasks: &[u64]) -> Order
    requires few { length tasks.now ≤ max_tasks }
    requires task_numbers { TaskNumbers tasks.now }
    ensures { result ≡ ranking tasks.now }
{
    let mut order = [0u16; MAX_TASKS];
    for (i, task) in tasks.iter().enumerate() {
        order[i] = *task as u16;
    }
    Order {
        tasks: order,
        count: tasks.len(),
    }
}
