// The line that is expected: its key, its range, and the test of its number beside the range. Place, stand and numbers go
// side by side: between two lines the next number is written, so that no value can hold the numbers for longer.
ghost use Rattle.std.specs.Prelude.{◌≡◌, ◌+◌, ◌≤◌, ◌<◌, false, length, Ok};
ghost use Rattle.basics.specs.Basics.{pick};
ghost use Rattle.text.specs.Text.{bytes};
ghost use Rattle.text.specs.Lines.{line_at, fault_number, told};
ghost use Rattle.grammars.specs.inside.Answers.{tested, unless};
ghost use Rattle.rows.specs.Rows.{min_task, max_task, max_tasks, first_point_at};
ghost use Rattle.rows.specs.inside.Numbers.{line_count};
ghost use Rattle.tables.specs.TableLines.{new_rank};
ghost use Rattle.readers.specs.inside.Numbers.{row_start, rows_in, behind};
ghost use Rattle.readers.specs.inside.Stands.{is_end, row_line_tested, line_here, fault_in, Stands};

use super::progress::{Part, Stand};
use super::{HEAD, HEAD_SWITCH, Table};
use rows::{
    ALPHA, BEST, BETA, DEADLINE, FIELDS, FIRST_POINT, HOLD, MAX_TASKS, PERIOD, POINTS, Row, TASK,
    WORST, has_task, is_among,
};
use text::{Cursor, Fault, LineRefusal, Number, line_at};

// The limits of a table beside those of its rows.
const BOARD_MIN: u64 = 1;

const BOARD_MAX: u64 = 65_535;

const TASKS_MIN: u64 = 1;

const TASKS_MAX: u64 = MAX_TASKS as u64;

// A line's number, unless it has a fault beside its range.
fn unless(faulty: bool, fault: Fault, number: Number, line: u32) -> Result<Number, LineRefusal>
    ensures { told result ≡ unless (pick faulty (fault_number fault) 0) (told (Ok number)) line }
{
    if faulty {
        return Err(LineRefusal { fault, line });
    }
    Ok(number)
}

// Here, in `next_line` and in `read_table` a `match` hands a refusal on, and not `?`: the places of what `?` hands on are
// filled with zeros at every line, a fifth more instructions in all.

// The line of a point, of its delay or of its allow by turns: its number is held against the one two lines before it, if
// there is one.
fn point_line(at: Cursor, stand: Stand, numbers: &[u64]) -> Result<Number, LineRefusal>
    requires first_point_at_le_position { (first_point_at ≤ stand.position) × (stand.position < line_count) × (stand.count < max_tasks) }
    requires position_in_bounds { row_start stand.count + stand.position ≤ length numbers.now }
    ensures { told result ≡ row_line_tested stand.count stand.position numbers.now at.entry.text.now at.entry.offset at.entry.line }
{
    let position = stand.position;
    let before = HEAD + FIELDS * stand.count + position - 2;
    if (position - FIRST_POINT) % 2 == 0 {
        return match line_at(at, b"delay=", Row::DELAY_MIN, Row::DELAY_MAX) {
            Ok(delay) => {
                if position == FIRST_POINT {
                    return Ok(delay);
                }
                unless(
                    delay.value <= numbers[before],
                    Fault::Disorderly,
                    delay,
                    at.line,
                )
            }
            Err(refusal) => Err(refusal),
        };
    }
    match line_at(at, b"allow=", Row::ALLOW_MIN, Row::ALLOW_MAX) {
        Ok(allow) => {
            if position == FIRST_POINT + 1 {
                return Ok(allow);
            }
            unless(
                numbers[before] < allow.value,
                Fault::Disorderly,
                allow,
                at.line,
            )
        }
        Err(refusal) => Err(refusal),
    }
}

// The line at a position within a row. It is found by a `match`, here and by the part, and not by a table of closures: a
// line's key, range and test are constants where they are read.
fn row_line(at: Cursor, stand: Stand, numbers: &[u64]) -> Result<Number, LineRefusal>
    requires position_lt_line_count { (stand.position < line_count) × (stand.count < max_tasks) }
    requires position_in_bounds { row_start stand.count + stand.position ≤ length numbers.now }
    ensures { told result ≡ row_line_tested stand.count stand.position numbers.now at.entry.text.now at.entry.offset at.entry.line }
{
    let start = HEAD + FIELDS * stand.count;
    let position = stand.position;
    match position {
        TASK => match line_at(at, b"task=", Row::TASK_MIN, Row::TASK_MAX) {
            Ok(task) => {
                let count = stand.count;
                let used = has_task(Table { numbers, count }.rows(), task.value);
                unless(used, Fault::Repeated, task, at.line)
            }
            refused => refused,
        },
        PERIOD => line_at(at, b"period=", Row::TICKS_MIN, Row::TICKS_MAX),
        DEADLINE => line_at(at, b"deadline=", Row::TICKS_MIN, Row::TICKS_MAX),
        WORST => match line_at(at, b"worst=", Row::TICKS_MIN, Row::TICKS_MAX) {
            Ok(worst) => {
                let fits = Row::fits(worst.value, numbers[HEAD_SWITCH], numbers[start + PERIOD]);
                unless(!fits, Fault::Exceeding, worst, at.line)
            }
            refused => refused,
        },
        BEST => match line_at(at, b"best=", Row::TICKS_MIN, Row::TICKS_MAX) {
            Ok(best) => unless(
                numbers[start + WORST] < best.value,
                Fault::Exceeding,
                best,
                at.line,
            ),
            refused => refused,
        },
        ALPHA => line_at(at, b"alpha=", Row::ALPHA_MIN, Row::ALPHA_MAX),
        BETA => line_at(at, b"beta=", Row::BETA_MIN, Row::BETA_MAX),
        HOLD => match line_at(at, b"hold=", Row::HOLD_MIN, Row::HOLD_MAX) {
            Ok(hold) => unless(
                numbers[start + WORST] < hold.value,
                Fault::Exceeding,
                hold,
                at.line,
            ),
            refused => refused,
        },
        POINTS => line_at(at, b"points=", Row::POINTS_MIN, Row::POINTS_MAX),
        _ => point_line(at, stand, numbers),
    }
}

// The line of a rank, which is to name one of the rows, and none of the ranks before it.
fn rank_line(at: Cursor, stand: Stand, numbers: &[u64]) -> Result<Number, LineRefusal>
    requires { (stand.count ≤ max_tasks) × (row_start stand.count + stand.position ≤ length numbers.now) }
    ensures { told result ≡ tested (new_rank (rows_in stand.count numbers.now) (behind stand.count stand.position numbers.now))
        (line_at (bytes "rank=") min_task max_task at.entry.text.now at.entry.offset at.entry.line) at.entry.line }
{
    match line_at(at, b"rank=", Row::TASK_MIN, Row::TASK_MAX) {
        Ok(rank) => {
            let task = rank.value;
            let count = stand.count;
            let ranks = HEAD + FIELDS * count;
            let known = has_task(Table { numbers, count }.rows(), task);
            let taken = is_among(&numbers[ranks..ranks + stand.position], task);
            unless(!(known & !taken), Fault::Impossible, rank, at.line)
        }
        refused => refused,
    }
}

// The line that is expected before the table's end.
pub fn expected_line(at: Cursor, stand: Stand, numbers: &[u64]) -> Result<Number, LineRefusal>
    requires stands { Stands at.text.now at.offset stand at.line numbers.now }
    requires before_end { is_end stand.part ≡ false }
    ensures { told result ≡ tested (fault_in stand.part stand numbers.now)
        (line_here stand.part stand.position at.entry.text.now at.entry.offset at.entry.line) at.entry.line }
{
    let part = stand.part;
    match part {
        Part::Board => line_at(at, b"board=", BOARD_MIN, BOARD_MAX),
        Part::Tasks => line_at(at, b"tasks=", TASKS_MIN, TASKS_MAX),
        Part::Switch => line_at(at, b"switch=", Row::SWITCH_MIN, Row::SWITCH_MAX),
        Part::Row => row_line(at, stand, numbers),
        Part::Rank => rank_line(at, stand, numbers),
        Part::End => unreachable!(),
    }
}
