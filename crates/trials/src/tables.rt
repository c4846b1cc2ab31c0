// Tables of a few tasks, and what their figures say of them. Here and in the other files each `as` is proved to lose
// nothing, and rows are lent on as slices with the clause that they are no more than ROWS.
ghost use Rattle.std.specs.Prelude.{◌≤◌, length};
ghost use Rattle.trials.specs.declared.tables.TheConstants.{ROWS};

use crate::figures::Rank;

// The most rows of a table.
pub const ROWS: usize = 6;

// A table's row, its times short enough that no sum here can overflow.
#[derive(Clone, Copy, Default)]
pub struct Row {
    pub task: u16,
    pub period: u16,
    pub worst: u16,
    pub best: u16,
    pub alpha: u16,
    pub beta: u32,
}

#[derive(Clone, Copy)]
pub struct Table {
    pub board: u16,
    // The first `count` are the table's: without a heap, and without a crate beside the library's own, a table is as
    // long as the longest and has its count beside it.
    held: [Row; ROWS],
    count: usize,
    ghost fits: { count ≤ ROWS },
}

// The first rank that is late, from 1.
#[derive(Clone, Copy)]
pub struct Late {
    pub rank: u32,
}

// Of rows that are all in time.
#[derive(Clone, Copy)]
pub struct Margins {
    // None is below 0.
    pub stable: bool,
    // Some margin is exactly 0.
    pub edge: bool,
}

impl Table {
    pub fn new(board: u16, rows: &[Row]) -> Self
        requires { length rows.now ≤ ROWS }
    {
        let mut held = [Row::default(); ROWS];
        held[..rows.len()].copy_from_slice(rows);
        Table {
            board,
            held,
            count: rows.len(),
        }
    }

    pub fn rows(&self) -> &[Row]
        ensures { length result.now ≤ ROWS }
    {
        &self.held[..self.count]
    }

    // The margins of rows that stand highest rank first. Stops at the first late rank.
    pub fn judged(&self) -> Result<Margins, Late> {
        let rows = self.rows();
        let mut stable = true;
        let mut edge = false;
        for (k, row) in rows.iter().enumerate() {
            let rank = Rank::of(*row, &rows[..k]);
            let figures = rank.figures().ok_or(Late { rank: k as u32 + 1 })?;
            stable &= figures.margin >= 0;
            edge |= figures.margin == 0;
        }
        Ok(Margins { stable, edge })
    }
}
