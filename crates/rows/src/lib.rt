// A task's row: its limits, and rows and orders as numbers. What a row is stands in specs/Rows.antt. `as` loses no number in
// here: one goes into more bits, or keeps the limits; `u64::from` was tried, and adds a fact for each call to the answers.
#![tactic(auto)]

ghost use Rattle.std.specs.Prelude.{◌≡◌, ◌^◌, ◌<◌, leb};
ghost use Rattle.rows.specs.Rows.{full_cost, numbers_in_range};
ghost use Rattle.rows.specs.Numbers.{row_from};
ghost use Rattle.rows.specs.inside.Records.{recorded, checked};

use basics::within;
use curves::{ALLOW_MAX, ALLOW_MIN, DELAY_MAX, DELAY_MIN, POINTS_MAX, POINTS_MIN};
pub use lent::{RowNumbers, cost, has_task, in_range, positions_for, rows_from};
pub use lent_order::LentOrder;
use numbers::row_numbers;
pub use numbers::{
    ALPHA, BEST, BETA, CURVE, DEADLINE, FIELDS, FIRST_POINT, HOLD, NUMBERS, PERIOD, POINTS, SWITCH,
    TASK, WORST, is_among, order_from, put_rows,
};

// numbers.rt: rows and orders as numbers. lent.rt: rows as they are lent. lent_order.rt: an order of them.
mod lent;
mod lent_order;
mod numbers;

// The most rows of a table. This and `max_tasks` in specs/Rows.antt are the two to change: every room follows from them.
pub const MAX_TASKS: usize = 16;

// A task's row, as a record. Times are in ticks, alpha in thousandths, beta in thousandths of a tick. A job of it may keep
// the processor for a stretch of at most `hold` ticks, and its board spends `switch` ticks when it first gets it. Its
// curve has so many points, whose numbers stand by turns in room for the most, since a row goes by value and no heap is
// used.
#[derive(Clone, Copy)]
pub struct Row {
    pub task: u32,
    pub period: u32,
    pub deadline: u32,
    pub worst: u32,
    pub best: u32,
    pub alpha: u32,
    pub beta: u64,
    pub hold: u32,
    pub switch: u32,
    pub points: u64,
    pub curve: [u64; CURVE],
}

// An order, highest rank first: at most MAX_TASKS task numbers and a count, the form of document 01, since it goes by value
// and no heap is used. No ghost field bounds the count: definitions make orders too, and each would owe a proof of it.
#[derive(Clone, Copy)]
pub struct Order {
    pub tasks: [u16; MAX_TASKS],
    pub count: usize,
}

impl Row {
    pub const TASK_MIN: u64 = 1;

    pub const TASK_MAX: u64 = 65_535;

    pub const TICKS_MIN: u64 = 1;

    pub const TICKS_MAX: u64 = 1_000_000;

    pub const ALPHA_MIN: u64 = 1_000;

    pub const ALPHA_MAX: u64 = 100_000;

    pub const BETA_MIN: u64 = 0;

    pub const BETA_MAX: u64 = 200_000_000_000;

    pub const HOLD_MIN: u64 = 0;

    pub const HOLD_MAX: u64 = 1_000_000;

    pub const SWITCH_MIN: u64 = 0;

    pub const SWITCH_MAX: u64 = 1_000;

    // The limits of its curve, which are those of every curve.
    pub const POINTS_MIN: u64 = POINTS_MIN;

    pub const POINTS_MAX: u64 = POINTS_MAX;

    pub const DELAY_MIN: u64 = DELAY_MIN;

    pub const DELAY_MAX: u64 = DELAY_MAX;

    pub const ALLOW_MIN: u64 = ALLOW_MIN;

    pub const ALLOW_MAX: u64 = ALLOW_MAX;

    // Whether a job of so many ticks at most, with the switch to it, fits a period.
    pub fn fits(worst: u64, switch: u64, period: u64) -> bool
        ensures { result ≡ leb (full_cost worst switch) period }
    {
        if period < switch {
            return false;
        }
        worst <= period - switch
    }

    // Whether the numbers of a row keep its limits, those of its curve aside.
    fn keeps(row: &RowNumbers) -> bool
        ensures { result ≡ numbers_in_range (row_from row.now) }
    {
        within(Row::TASK_MIN, Row::TASK_MAX, row[TASK])
            & within(Row::TICKS_MIN, Row::TICKS_MAX, row[PERIOD])
            & within(Row::TICKS_MIN, Row::TICKS_MAX, row[DEADLINE])
            & within(Row::TICKS_MIN, Row::TICKS_MAX, row[WORST])
            & within(Row::TICKS_MIN, Row::TICKS_MAX, row[BEST])
            & within(Row::ALPHA_MIN, Row::ALPHA_MAX, row[ALPHA])
            & within(Row::BETA_MIN, Row::BETA_MAX, row[BETA])
            & within(Row::HOLD_MIN, Row::HOLD_MAX, row[HOLD])
            & within(Row::SWITCH_MIN, Row::SWITCH_MAX, row[SWITCH])
            & Row::fits(row[WORST], row[SWITCH], row[PERIOD])
            & (row[BEST] <= row[WORST])
            & (row[HOLD] <= row[WORST])
    }

    // The row of some numbers and a curve, if they keep its limits. Each number has its name here, which an array of them
    // would not show. For callers who have rows as records, the form that document 01 names.
    pub fn new(
        task: u64,
        period: u64,
        deadline: u64,
        worst: u64,
        best: u64,
        alpha: u64,
        beta: u64,
        hold: u64,
        switch: u64,
        points: u64,
        curve: [u64; CURVE],
    ) -> Option<Row>
        ensures { result ≡ checked (recorded task period deadline worst best alpha beta hold switch points curve) }
    {
        let lines = [
            task, period, deadline, worst, best, alpha, beta, hold, points,
        ];
        if !in_range(&row_numbers(lines, &curve, switch)) {
            return None;
        }
        Some(Row {
            task: task as u32,
            period: period as u32,
            deadline: deadline as u32,
            worst: worst as u32,
            best: best as u32,
            alpha: alpha as u32,
            beta,
            hold: hold as u32,
            switch: switch as u32,
            points,
            curve,
        })
    }
}

// The most ticks that a job takes, with the switch to it.
fn full_cost(worst: u64, switch: u64) -> u64
    requires { full_cost worst switch < 2 ^ 64 }
    ensures { result ≡ full_cost worst switch }
{
    worst + switch
}
