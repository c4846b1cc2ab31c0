// Reads stored texts as tables and prints what each reads as: the refusal's number and its line, or 0 and 0, then the
// board, the numbers of each row's lines and its switch, and the ranks. docs/src/table_cases.py makes the texts and what
// must be printed. Each `as` is proved to lose nothing.
#![tactic(auto)]

ghost use Rattle.std.specs.Prelude.{◌≡◌, ◌+◌, ◌≤◌, length};
ghost use Rattle.rows.specs.inside.Numbers.{line_count};
ghost use Rattle.readers.specs.inside.Numbers.{Room, row_start};

use readers::{BOARD, FEW_NUMBERS, HEAD, MOST_NUMBERS, Table, fits_in, rank_lines, read_table};
use rows::{FIELDS, FIRST_POINT, POINTS, Row, RowNumbers, SWITCH};
use text::{Cursor, line_at};

const STDIN: i32 = 0;

const STDOUT: i32 = 1;

// The most bytes of a text.
const MAX_TEXT: u64 = 65_536;

// A number after a space.
fn print_next(n: u64) {
    io::write_all(STDOUT, b" ");
    io::print_decimal(STDOUT, n);
}

fn print_numbers(numbers: &[u64]) {
    for n in numbers {
        print_next(*n);
    }
}

// How many lines a row has whose line `points` has a number: no more than the most.
fn row_lines(points: u64) -> usize
    ensures { result ≤ line_count }
{
    if Row::POINTS_MAX < points {
        return FIRST_POINT;
    }
    FIRST_POINT + 2 * points as usize
}

// The numbers of a row's lines and its switch.
fn print_row(row: &RowNumbers) {
    let lines = row_lines(row[POINTS]);
    print_numbers(&row[..lines]);
    print_next(row[SWITCH]);
}

// The board, the numbers of each row, and those of so many rank lines.
fn print_table(table: Table, ranks: usize)
    requires { row_start table.count + ranks ≤ length table.numbers.now }
{
    print_next(table.numbers[BOARD]);
    for row in table.rows() {
        print_row(row);
    }
    let start = HEAD + FIELDS * table.count;
    print_numbers(&table.numbers[start..start + ranks]);
}

// A text as it is read into lent numbers.
fn print_read(text: &[u8], ranked: bool, numbers: &mut [u64])
    requires { Room text.now numbers.old }
{
    match read_table(text, ranked, numbers) {
        Ok(count) => {
            io::write_all(STDOUT, b"0 0");
            print_table(Table { numbers, count }, rank_lines(ranked, count));
        }
        Err(refusal) => {
            io::print_decimal(STDOUT, refusal.fault.number() as u64);
            print_next(refusal.line as u64);
        }
    }
    io::write_all(STDOUT, b"\n");
}

// A short text is read into few numbers.
fn print_reading(text: &[u8], ranked: bool) {
    if fits_in(text, FEW_NUMBERS) {
        let mut few = [0u64; FEW_NUMBERS];
        print_read(text, ranked, &mut few);
    } else {
        let mut all = [0u64; MOST_NUMBERS];
        print_read(text, ranked, &mut all);
    }
}

// The first text of the input, after its length and whether rank lines are expected: the input behind it.
fn print_stored(input: &[u8]) -> Option<&[u8]> {
    let at = Cursor {
        text: input,
        offset: 0,
        line: 1,
    };
    let length = line_at(at, b"length=", 0, MAX_TEXT).ok()?;
    let at = Cursor {
        offset: length.next,
        line: 2,
        ..at
    };
    let ranked = line_at(at, b"ranked=", 0, 1).ok()?;
    let behind = input.get(ranked.next..)?;
    let (text, rest) = behind.split_at_checked(length.value as usize)?;
    print_reading(text, ranked.value == 1);
    Some(rest)
}

// Every text of the input; how many there are.
fn print_all(input: &[u8]) -> u64 {
    let mut rest = input;
    let mut count: u64 = 0;
    while !rest.is_empty() {
        let Some(next) = print_stored(rest) else {
            return count;
        };
        if rest.len() <= next.len() {
            return count;
        }
        rest = next;
        count += 1;
    }
    count
}

fn main() {
    let mut buffer = io::large_buffer();
    let size = io::read_full(STDIN, &mut buffer);
    let count = print_all(&buffer[..size]);
    io::write_all(STDOUT, b"texts=");
    io::print_decimal(STDOUT, count);
    io::write_all(STDOUT, b"\n");
}
