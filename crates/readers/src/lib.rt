// A table as text: what is read, and what is refused on which line. Each `as` is proved to lose nothing.
#![tactic(auto)]

ghost use Rattle.std.specs.Prelude.{◌≡◌, ◌≤◌, leb, length};
ghost use Rattle.readers.specs.inside.Numbers.{most_numbers, bytes_for, Room};
ghost use Rattle.readers.specs.inside.Readings.{ReadAs};

pub use numbers::{BOARD, HEAD, HEAD_SWITCH, Table};
pub use progress::{Part, Progress, Stand, next_line, rank_lines, take_line};
use rows::{FIELDS, MAX_TASKS};
use text::{LineRefusal, end_at};

// lines.rt: the line that is expected. numbers.rt: a table as its numbers. progress.rt: how far the reading has come.
mod lines;
mod numbers;
mod progress;

// Room for the numbers of the longest table with its ranks.
pub const MOST_NUMBERS: usize = HEAD + FIELDS * MAX_TASKS + MAX_TASKS;

// A row's lines have at least so many bytes: nine lines of seven.
const ROW_BYTES: usize = 63;

// How many numbers are room enough for the table of a short text, and of longer ones.
pub const FEW_NUMBERS: usize = 64;

pub const SOME_NUMBERS: usize = 100;

pub const MORE_NUMBERS: usize = 232;

pub const MANY_NUMBERS: usize = 344;

// Whether a text is so short that some numbers are room enough for its table's.
pub fn fits_in(text: &[u8], numbers: usize) -> bool
    requires { numbers ≤ most_numbers }
    ensures { result ≡ leb (length text.now) (bytes_for numbers) }
{
    text.len() <= ROW_BYTES * numbers / FIELDS
}

// A table as the planner takes it, or with rank lines as the reviewer does: how many rows it has, its numbers standing
// where they were lent, one after another. That there is room for them (`Room`) is said of the text and of the numbers by
// each that hands them on: a type of the two would be taken apart again for the numbers.
pub fn read_table(text: &[u8], ranked: bool, numbers: &mut [u64]) -> Result<usize, LineRefusal>
    requires { Room text.now numbers.old }
    ensures { ReadAs ranked text.now numbers.new result }
{
    let mut at = Progress::start(ranked);
    while at.stand.part != Part::End {
        at = match next_line(text, at, numbers) {
            Ok(next) => next,
            Err(refusal) => return Err(refusal),
        };
    }
    end_at(at.cursor(text))?;
    Ok(at.stand.count)
}
