// A table as the numbers that a text was read into: those of the head's lines, then those of its rows, then its ranks.
ghost use Rattle.std.specs.Prelude.{◌≡◌, ◌+◌, ◌≤◌, length};
ghost use Rattle.rows.specs.Rows.{max_tasks};
ghost use Rattle.rows.specs.inside.Arrays.{ranking};
ghost use Rattle.rows.specs.inside.Lent.{table_of};
ghost use Rattle.rows.specs.inside.Numbers.{TaskNumbers};
ghost use Rattle.readers.specs.inside.Numbers.{row_start, board_in, rows_in, behind};

use rows::{FIELDS, Order, RowNumbers, order_from, rows_from};

// How many lines a table's head has, and where its board and its switch stand.
pub const HEAD: usize = 3;

pub const BOARD: usize = 0;

pub const HEAD_SWITCH: usize = 2;

// The numbers of a table with so many rows, and of what may follow them. A count stands beside them, since the text says
// it, and the room for them is longer.
#[derive(Clone, Copy)]
pub struct Table<'a> {
    pub numbers: &'a [u64],
    pub count: usize,
    pub ghost few: { count ≤ max_tasks },
    pub ghost held: { row_start count ≤ length numbers.now },
}

impl<'a> Table<'a> {
    // Its board's number.
    pub fn board(self) -> u16
        requires { board_in self.numbers.now ≤ 65535 }
        ensures { result ≡ board_in self.entry.numbers.now }
    {
        self.numbers[BOARD] as u16
    }

    pub fn rows(self) -> &'a [RowNumbers]
        ensures table { table_of result.now ≡ rows_in self.entry.count self.entry.numbers.now }
        ensures count { length result.now ≡ self.entry.count }
    {
        rows_from(&self.numbers[HEAD..], self.count)
    }

    // The order that its rank lines give.
    pub fn order(self) -> Order
        requires held { row_start self.count + self.count ≤ length self.numbers.now }
        requires task_numbers { TaskNumbers (behind self.count self.count self.numbers.now) }
        ensures { result ≡ ranking (behind self.entry.count self.entry.count self.entry.numbers.now) }
    {
        let ranks = HEAD + FIELDS * self.count;
        order_from(&self.numbers[ranks..ranks + self.count])
    }
}
