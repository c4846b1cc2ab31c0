// The order of a table to watch: where its rows stand among the table's, and what a run knows of its ranks.
ghost use Rattle.std.specs.Prelude.{◌≡◌, ◌+◌, ◌≤◌, length};
ghost use Rattle.rows.specs.inside.Numbers.{TaskNumbers, positions_for};
ghost use Rattle.readers.specs.inside.Numbers.{row_start, rows_in, behind};
ghost use Rattle.watches.specs.inside.Rankings.{Rankable, RanksAre};

use super::lines::Range;
use plan_orders::OrderInLimits;
use readers::Table;
use rows::{BEST, PERIOD, TASK, cost, positions_for};
use watch_runs::Rank;

// A table's order, and its ranks, with the range of the lengths of each. The ranks are what a run is lent, and the ranges
// what the lines of its lengths are, so each has an array of its own. Two lifetimes: the order's rows are read before either
// array is filled.
#[derive(Clone, Copy)]
pub struct Ranking<'o, 'a> {
    pub order: OrderInLimits<'o>,
    pub ranks: &'a [Rank],
    pub ranges: &'a [Range],
}

// Where the rows of a table's rank lines stand, which name a task each.
pub fn place_ranks(table: Table, positions: &mut [usize])
    requires places { length positions.old ≡ table.count }
    requires held { row_start table.count + table.count ≤ length table.numbers.now }
    requires tasks { TaskNumbers (behind table.count table.count table.numbers.now) }
    ensures { let t = table.entry in positions.new
        ≡ positions_for (behind t.count t.count t.numbers.now) (rows_in t.count t.numbers.now) }
{
    let order = table.order();
    positions_for(&order.tasks[..table.count], table.rows(), positions);
}

// The ranks of an order, the first release of each that of its row, and the ranges of their lengths. By the index k, as in
// `rows::positions_for`: a `zip` of three is no plainer.
pub fn fill_ranks(order: OrderInLimits, releases: &[u64], ranks: &mut [Rank], ranges: &mut [Range])
    requires { Rankable order.lent releases.now ranks.old ranges.old }
    ensures { RanksAre order.entry.lent releases.now ranks.new ranges.new }
{
    for (k, position) in order.lent.positions.iter().enumerate() {
        let row = &order.lent.rows[*position];
        let cost = cost(row);
        ranks[k] = Rank {
            task: row[TASK],
            offset: releases[*position],
            period: row[PERIOD],
            cost,
        };
        ranges[k] = Range {
            low: row[BEST],
            high: cost,
        };
    }
}
