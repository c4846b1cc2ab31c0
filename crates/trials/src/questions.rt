// What is asked of the planner and the reviewer, and what each has to answer.
ghost use Rattle.io.specs.Counts.{IsPrefixLen};
ghost use Rattle.std.specs.Prelude.{IfOk};

use crate::permutations::{Found, Order, first_stable};
use crate::tables::{Late, Table};
use crate::texts::{Plan, Ranks, Text};
use std::fmt;

#[derive(Clone, Copy)]
pub enum Question {
    // Of the planner: a table, and what trying every order has found.
    Plan(Table, Option<Found>),
    // Of the reviewer: a table and an order.
    Review(Table, Order),
}

// A refusal's number, and its place. The number is the document's own and no kind of the planner's: an answer is held
// against what the document says, and shares nothing with the crates that give it.
#[derive(Clone, Copy, PartialEq, Eq)]
pub struct Refusal {
    pub number: u8,
    pub place: u32,
}

impl fmt::Display for Refusal {
    fn fmt<W: fmt::Write>(&self, f: &mut fmt::Formatter<W>) -> fmt::Result {
        write!(f, "refusal {}, place {}", self.number, self.place)
    }
}

// How many bytes a call writes, or why none.
pub type Answer = Result<usize, Refusal>;

impl From<Late> for Refusal {
    fn from(late: Late) -> Refusal {
        Refusal {
            number: 7,
            place: late.rank,
        }
    }
}

const NO_ORDER: Refusal = Refusal {
    number: 8,
    place: 0,
};

const NO_ROOM: Refusal = Refusal {
    number: 9,
    place: 0,
};

impl Question {
    // What the planner is asked: every order is tried here.
    pub fn to_planner(table: Table) -> Self {
        let found = first_stable(&table);
        Question::Plan(table, found)
    }

    // The table's rows in the sequence of the order that is asked for, if there is one.
    pub fn ranked(&self) -> Option<Table> {
        match self {
            Question::Plan(table, found) => {
                let found = (*found)?;
                Some(table.arranged(&found.first))
            }
            Question::Review(table, order) => Some(table.arranged(order)),
        }
    }

    // The text that is handed to the call.
    pub fn text(&self) -> Text {
        Text::of(self)
    }

    // What has to be answered, and written into the buffer.
    pub fn answered(&self, out: &mut [u8]) -> Answer
        ensures { IfOk result (λ n. IsPrefixLen n out.new) }
    {
        let ranked = self.ranked().ok_or(NO_ORDER)?;
        ranked.judged()?;
        let text = Text::of(Plan(ranked));
        let bytes = text.as_bytes();
        let n = bytes.len();
        let written = out.get_mut(..n).ok_or(NO_ROOM)?;
        written.copy_from_slice(bytes);
        Ok(n)
    }
}

impl fmt::Display for Question {
    fn fmt<W: fmt::Write>(&self, f: &mut fmt::Formatter<W>) -> fmt::Result {
        match self {
            Question::Plan(table, _) => write!(f, "{table}"),
            Question::Review(table, order) => {
                let ranks = Ranks(table.arranged(order));
                write!(f, "{table}{ranks}")
            }
        }
    }
}
