// Small tables by chance.
ghost use Rattle.std.specs.Prelude.{◌≤◌, length};

use crate::dice::Dice;
use crate::figures::Rank;
use crate::permutations::Order;
use crate::tables::{ROWS, Row, Table};

// A best of its worst, or any up to it.
fn any_best(dice: &mut Dice, worst: u16) -> u16
    requires { 1 ≤ worst }
{
    if dice.once_in(2) {
        worst
    } else {
        dice.between(1, worst)
    }
}

// A row whose worst is about a share of its period at most; task and beta come later.
fn any_row(dice: &mut Dice, longest: u16, share: u16) -> Row
    requires { (2 ≤ longest) × (1 ≤ share) }
{
    let period = dice.between(2, longest);
    let worst = dice.between(1, 1 + (period - 1) / share);
    let best = any_best(dice, worst);
    let alpha = dice.between(1000, 5000);
    Row {
        task: 1,
        period,
        worst,
        best,
        alpha,
        beta: 0,
    }
}

// Rows by chance with task numbers of their own; in one table of eight they are otherwise alike.
fn any_rows(dice: &mut Dice, longest: u16, share: u16) -> [Row; ROWS]
    requires { (2 ≤ longest) × (1 ≤ share) }
{
    let alike = dice.once_in(8);
    let first = dice.between(1, 65529);
    let step = dice.between(1, 6);
    let mut row = any_row(dice, longest, share);
    let mut rows = [row; ROWS];
    // Six steps around a circle of seven meet no point twice.
    let mut point = dice.between(0, 6);
    for place in rows.iter_mut() {
        if !alike {
            row = any_row(dice, longest, share);
        }
        row.task = first + point;
        *place = row;
        point = (point + step) % 7;
    }
    rows
}

// A beta above the line by at most `loose`, or one short of the line; any small one for a late row, which has no line.
fn any_beta(dice: &mut Dice, line: Option<u64>, short: bool, loose: u16) -> u32 {
    let Some(line) = line else {
        return u32::from(dice.between(0, 60000));
    };
    let slack = u64::from(dice.between(0, loose));
    let beta = if short {
        line.saturating_sub(1)
    } else {
        line.saturating_add(slack)
    };
    u32::try_from(beta).unwrap_or(u32::MAX)
}

// In half of the tables every beta stands at a line.
fn any_loose(dice: &mut Dice) -> u16 {
    match dice.between(0, 3) {
        0 => 9000,
        1 => 60000,
        _ => 0,
    }
}

// Sets betas that make the rows' own sequence a stable order, or miss that by one thousandth at one rank.
fn line_up(rows: &mut [Row], dice: &mut Dice)
    requires { length rows.old ≤ ROWS }
{
    let short = usize::from(dice.between(0, 11));
    let loose = any_loose(dice);
    // By position: a row is written while those above it are read.
    for k in 0..rows.len() {
        let line = Rank::of(rows[k], &rows[..k]).figures().map(|f| f.line);
        rows[k].beta = any_beta(dice, line, k == short, loose);
    }
}

// A few of the smaller tables have long periods.
fn any_longest(dice: &mut Dice, count: u16) -> u16
    ensures { 2 ≤ result }
{
    if count <= 3 && dice.once_in(8) {
        2000
    } else {
        60
    }
}

// A table of 1 to 6 tasks, in random sequence.
pub fn any_table(dice: &mut Dice) -> Table {
    let count = dice.between(1, 6);
    let longest = any_longest(dice, count);
    let share = dice.between((count + 1) / 2, count + 2);
    let mut rows = any_rows(dice, longest, share);
    let n = usize::from(count);
    let rows = &mut rows[..n];
    line_up(rows, dice);
    let table = Table::new(dice.between(1, 65535), rows);
    table.arranged(&Order::at(n, u64::from(dice.between(0, 719))))
}
