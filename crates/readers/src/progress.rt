// How far the reading of a table has come, and what a line makes of it.
ghost use Rattle.std.specs.Prelude.{◌≡◌, false, [], ◌∷◌, ◌++◌, ◌+◌, ◌≤◌, ◌<◌, length};
ghost use Rattle.basics.specs.Basics.{pick};
ghost use Rattle.rows.specs.Rows.{max_tasks};
ghost use Rattle.rows.specs.inside.Numbers.{line_count, switch_at, between};
ghost use Rattle.tables.specs.TableLines.{is_whole};
ghost use Rattle.readers.specs.inside.Numbers.{row_start};
ghost use Rattle.readers.specs.inside.Stands.{is_end, begun, ranks_next, rows_next, after_field, stand_after, Counted};
ghost use Rattle.readers.specs.inside.Stands.{read_by, ends_row, PutAt, with_number, Stands, TakesLine, TakesOrEnds};

use super::lines::expected_line;
use super::{HEAD, HEAD_SWITCH};
use rows::{FIELDS, POINTS, SWITCH};
use text::{Cursor, LineRefusal, end_at};

// The line that is expected next: one of the head, of a row, a rank, or none.
#[derive(Clone, Copy, PartialEq, Eq)]
pub enum Part {
    Board,
    Tasks,
    Switch,
    Row,
    Rank,
    End,
}

// Where in the table the reading stands: the rows that are whole, how many are left after the one that is being read,
// and how many of its numbers are there; before the rows, how many are to come; or, behind them, the ranks that are left
// after the next and those so far. The same few numbers for every part: the laws of a step are by the part alone, and
// with numbers in its cases each definition (specs/inside/Stands.antt) would be by cases of cases. What is known of them
// (`Counted`) is a clause, and no ghost field: each definition of a stand would have to prove it.
#[derive(Clone, Copy)]
pub struct Stand {
    pub part: Part,
    pub ranked: bool,
    pub count: usize,
    pub left: usize,
    pub position: usize,
}

// Where the reading stands, with the line and the offset of the next line.
#[derive(Clone, Copy)]
pub struct Progress {
    pub stand: Stand,
    pub line: u32,
    pub offset: usize,
}

impl Progress {
    // Before the first line.
    pub fn start(ranked: bool) -> Progress
        ensures { result ≡ begun ranked }
    {
        let stand = Stand {
            part: Part::Board,
            ranked,
            count: 0,
            left: 0,
            position: 0,
        };
        Progress {
            stand,
            line: 1,
            offset: 0,
        }
    }

    // The place of the next line in the text.
    pub fn cursor(self, text: &[u8]) -> Cursor
        ensures text { result.text.now ≡ text.now }
        ensures offset { result.offset ≡ self.offset }
        ensures line { result.line ≡ self.line }
    {
        Cursor {
            text,
            offset: self.offset,
            line: self.line,
        }
    }
}

// Where so many rank lines are left.
fn ranks_next(ranked: bool, count: usize, named: usize, left: usize) -> Stand
    ensures { result ≡ ranks_next ranked count named left }
{
    if left == 0 {
        return Stand {
            part: Part::End,
            ranked,
            count,
            left: 0,
            position: named,
        };
    }
    Stand {
        part: Part::Rank,
        ranked,
        count,
        left: left - 1,
        position: named,
    }
}

// How many rank lines are expected.
pub fn rank_lines(ranked: bool, tasks: usize) -> usize
    ensures { result ≡ pick ranked tasks 0 }
{
    if ranked { tasks } else { 0 }
}

// Where so many rows are left.
fn rows_next(ranked: bool, count: usize, left: usize) -> Stand
    ensures { result ≡ rows_next ranked count left }
{
    if left == 0 {
        return ranks_next(ranked, count, 0, rank_lines(ranked, count));
    }
    Stand {
        part: Part::Row,
        ranked,
        count,
        left: left - 1,
        position: 0,
    }
}

// Whether a number is the last of its row, by those before it: there are two lines for each of its points, which the
// line `points` says.
fn is_last(before: &[u64], value: u64) -> bool
    requires { length before.now < line_count }
    ensures { result ≡ is_whole (before.now ++ (value ∷ [])) }
{
    let position = before.len();
    if position < POINTS {
        return false;
    }
    if position == POINTS {
        return value == 0;
    }
    let behind = position - POINTS;
    if behind % 2 == 1 {
        return false;
    }
    before[POINTS] == (behind / 2) as u64
}

impl Stand {
    // How many numbers there are behind the head's: those of the whole rows, and the next.
    fn behind_head(self) -> usize
        requires { (self.count ≤ max_tasks) × (self.position ≤ line_count) }
        ensures { result ≡ row_start self.count + self.position }
    {
        HEAD + FIELDS * self.count + self.position
    }

    // Where the switch of the row that is being read stands.
    fn switch_index(self) -> usize
        requires { self.count ≤ max_tasks }
        ensures { result ≡ row_start self.count + switch_at }
    {
        HEAD + FIELDS * self.count + SWITCH
    }

    // How many numbers there are: where the next is put. By a `match` on the part, as all that depends on it (`lines.rt`).
    fn read(self) -> usize
        requires { Counted self.part self }
        ensures { result ≡ read_by self.part self }
    {
        let part = self.part;
        match part {
            Part::Board => 0,
            Part::Tasks => 1,
            Part::Switch => 2,
            // An arm for each: with one for the three, a line takes a tenth longer.
            Part::Row => self.behind_head(),
            Part::Rank => self.behind_head(),
            Part::End => self.behind_head(),
        }
    }

    // Whether a number is the last of its row.
    fn ends_row(self, value: u64, numbers: &[u64]) -> bool
        requires { Counted self.part self × (read_by self.part self ≤ length numbers.now) }
        ensures { result ≡ ends_row self.part self numbers.now value }
    {
        let part = self.part;
        match part {
            Part::Row => {
                let start = HEAD + FIELDS * self.count;
                is_last(&numbers[start..start + self.position], value)
            }
            _ => false,
        }
    }

    // A number is put behind those before it, and the table's switch where it stands in a row whose last it is.
    fn put(self, numbers: &mut [u64], value: u64, last: bool)
        requires counted { Counted self.part self }
        requires room { PutAt last (read_by self.part self) (row_start self.count + switch_at) numbers.old }
        ensures { numbers.new
            ≡ with_number last (read_by self.part self) (row_start self.count + switch_at) value numbers.old }
    {
        numbers[self.read()] = value;
        if last {
            numbers[self.switch_index()] = numbers[HEAD_SWITCH];
        }
    }

    // Behind one more number of a row, its last or not.
    fn after_field(self, last: bool) -> Stand
        requires { (self.position < line_count) × (self.count < max_tasks) }
        ensures { result ≡ after_field last self }
    {
        if last {
            return rows_next(self.ranked, self.count + 1, self.left);
        }
        Stand {
            part: Part::Row,
            ranked: self.ranked,
            count: self.count,
            left: self.left,
            position: self.position + 1,
        }
    }

    // Behind a number, of a line before the table's end.
    fn after(self, value: u64, last: bool) -> Stand
        requires counted { Counted self.part self }
        requires before_end { is_end self.part ≡ false }
        ensures { result ≡ stand_after self.part last self value }
    {
        let part = self.part;
        match part {
            Part::Board => Stand {
                part: Part::Tasks,
                ranked: self.ranked,
                count: 0,
                left: 0,
                position: 0,
            },
            Part::Tasks => Stand {
                part: Part::Switch,
                ranked: self.ranked,
                count: 0,
                left: value as usize,
                position: 0,
            },
            Part::Switch => rows_next(self.ranked, 0, self.left),
            Part::Row => self.after_field(last),
            Part::Rank => ranks_next(self.ranked, self.count, self.position + 1, self.left),
            Part::End => unreachable!(),
        }
    }
}

// The reading past the line that is expected, whose number stands behind those before it.
pub fn next_line(
    text: &[u8],
    before: Progress,
    numbers: &mut [u64],
) -> Result<Progress, LineRefusal>
    requires stands { Stands text.now before.offset before.stand before.line numbers.old }
    requires before_end { is_end before.stand.part ≡ false }
    ensures { TakesLine before text.now numbers.old result numbers.new }
{
    let stand = before.stand;
    let number = match expected_line(before.cursor(text), stand, numbers) {
        Ok(number) => number,
        Err(refusal) => return Err(refusal),
    };
    let last = stand.ends_row(number.value, numbers);
    stand.put(numbers, number.value, last);
    Ok(Progress {
        stand: stand.after(number.value, last),
        line: before.line + 1,
        offset: number.next,
    })
}

// The reading past the line that is expected, or behind the last the end of the text, where there is no line more. For a
// caller who takes a table line by line to its text's end; `read_table` asks for the end once, behind its loop.
pub fn take_line(
    text: &[u8],
    before: Progress,
    numbers: &mut [u64],
) -> Result<Option<Progress>, LineRefusal>
    requires { Stands text.now before.offset before.stand before.line numbers.old }
    ensures { TakesOrEnds before text.now numbers.old result numbers.new }
{
    if before.stand.part == Part::End {
        end_at(before.cursor(text))?;
        return Ok(None);
    }
    let next = next_line(text, before, numbers)?;
    Ok(Some(next))
}
