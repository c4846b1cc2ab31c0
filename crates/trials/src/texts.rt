// Tables and plans as text, in fixed memory.
ghost use Rattle.std.specs.Prelude.{◌≤◌};
ghost use Rattle.trials.specs.declared.texts.TheConstants.{SPACE};

use crate::figures::{Figures, Rank};
use crate::tables::{Row, Table};
use std::fmt::{self, Write};

// Bytes enough for every text of a generated table.
pub const SPACE: usize = 1024;

// A text, at most SPACE long: its bytes are counted beside them, without a heap and without a crate beside the
// library's own. What has no room is dropped, and a text cut short would be seen as a difference.
#[derive(Clone, Copy)]
pub struct Text {
    bytes: [u8; SPACE],
    len: usize,
    ghost fits: { len ≤ SPACE },
}

impl Text {
    fn new() -> Self {
        Text {
            bytes: [0; SPACE],
            len: 0,
        }
    }

    // A value's text.
    pub(crate) fn of<D: fmt::Display + Drop>(value: D) -> Self {
        let mut text = Text::new();
        let _ = write!(text, "{value}");
        text
    }

    // Two texts, one after the other.
    pub fn joined(first: &[u8], second: &[u8]) -> Self {
        let mut text = Text::new();
        text.append(first);
        text.append(second);
        text
    }

    pub fn as_bytes(&self) -> &[u8] {
        &self.bytes[..self.len]
    }

    fn append(&mut self, more: &[u8]) {
        let room = &mut self.bytes[self.len..];
        let n = more.len().min(room.len());
        room[..n].copy_from_slice(&more[..n]);
        self.len += n;
    }
}

// Prints a value's text.
pub fn print<D: fmt::Display + Drop>(value: D) {
    io::write_all(1, Text::of(value).as_bytes());
}

impl fmt::Write for Text {
    fn write_str(&mut self, s: &str) -> fmt::Result {
        self.append(s.as_bytes());
        Ok(())
    }
}

// With what a row has beside document 01's lines: its period as its deadline, no hold and no points.
impl fmt::Display for Row {
    fn fmt<W: fmt::Write>(&self, f: &mut fmt::Formatter<W>) -> fmt::Result {
        write!(
            f,
            "task={}\nperiod={}\ndeadline={}\nworst={}\n",
            self.task, self.period, self.period, self.worst
        )?;
        write!(
            f,
            "best={}\nalpha={}\nbeta={}\n",
            self.best, self.alpha, self.beta
        )?;
        write!(f, "hold=0\npoints=0\n")
    }
}

// A switch costs nothing.
impl fmt::Display for Table {
    fn fmt<W: fmt::Write>(&self, f: &mut fmt::Formatter<W>) -> fmt::Result {
        let rows = self.rows();
        write!(f, "board={}\ntasks={}\nswitch=0\n", self.board, rows.len())?;
        for row in rows {
            write!(f, "{row}")?;
        }
        Ok(())
    }
}

// The reviewer's lines: the tasks of rows that stand highest rank first.
#[derive(Drop)]
pub struct Ranks(pub Table);

impl fmt::Display for Ranks {
    fn fmt<W: fmt::Write>(&self, f: &mut fmt::Formatter<W>) -> fmt::Result {
        for row in self.0.rows() {
            write!(f, "rank={}\n", row.task)?;
        }
        Ok(())
    }
}

impl fmt::Display for Figures {
    fn fmt<W: fmt::Write>(&self, f: &mut fmt::Formatter<W>) -> fmt::Result {
        write!(
            f,
            "best={}\nworst={}\njitter={}\nmargin={}\n",
            self.best, self.worst, self.jitter, self.margin
        )
    }
}

// The plan of rows that stand highest rank first.
#[derive(Drop)]
pub struct Plan(pub Table);

impl fmt::Display for Plan {
    fn fmt<W: fmt::Write>(&self, f: &mut fmt::Formatter<W>) -> fmt::Result {
        let rows = self.0.rows();
        write!(f, "plan=1\nboard={}\ntasks={}\n", self.0.board, rows.len())?;
        for (k, row) in rows.iter().enumerate() {
            let figures = Rank::of(*row, &rows[..k]).figures().unwrap_or_default();
            write!(f, "rank={}\ntask={}\n{figures}", k + 1, row.task)?;
        }
        Ok(())
    }
}
