// The order of a table's tasks by the rule, found from the whole set down with a byte for each set.
#![tactic(auto)]

ghost use Rattle.std.specs.Prelude.{◌≡◌, ◌/◌, ◌%◌, ◌^◌, ◌≤◌, ◌<◌, length};
ghost use Rattle.rows.specs.Rows.{max_buffer, max_tasks};
ghost use Rattle.rows.specs.inside.Arrays.{ranking};
ghost use Rattle.rows.specs.inside.Lent.{table_of};
ghost use Rattle.rows.specs.inside.Records.{as_rows};
ghost use Rattle.responses.specs.Figures.{largest_hold, blocking};
ghost use Rattle.search.specs.inside.Sets.{others, fits, Recorded, LowestFound, Settled};
ghost use Rattle.orders.specs.Stability.{stable};
ghost use Rattle.analysis.specs.inside.Above.{Decided};
ghost use Rattle.search.specs.inside.Search.{Lent, Gathered, FitsSaid, MayGo, Chained, chain_tasks, TableRows, Chooses};

use analysis::{Above, blocking_time, load_at_best, load_at_worst, stable_under};
use basics::larger;
use responses::Load;
use rows::{HOLD, MAX_TASKS, NUMBERS, Order, Row, RowNumbers, TASK, put_rows, rows_from};

// Numbers of tasks for which a record of sets of their own is kept, with the sets of each: the longest is for the most
// tasks.
const FEW_TASKS: usize = 6;

const FEW_SETS: usize = 1 << FEW_TASKS;

const SOME_TASKS: usize = 9;

const SOME_SETS: usize = 1 << SOME_TASKS;

const MORE_TASKS: usize = 12;

const MORE_SETS: usize = 1 << MORE_TASKS;

const MANY_TASKS: usize = 14;

const MANY_SETS: usize = 1 << MANY_TASKS;

const MOST_SETS: usize = 1 << MAX_TASKS;

// A byte of the record of sets that is no row: the set isn't known yet, or has no order. An option would take two bytes
// for each of the most tasks' 65,536 sets, in a memory that is fixed.
const UNKNOWN: u8 = 254;

const NO_ORDER: u8 = 255;

// A set of rows is a number, bit i for row i: it is computed with, so that its bound is a clause of each method and no type
// of its own. Each `as` is proved to lose nothing.

// 2 to the power i.
fn power(i: usize) -> usize
    requires { i ≤ max_tasks }
    ensures { result ≡ 2 ^ i }
{
    1 << i
}

// The search of a table's order: its rows, what is known of each set of them, and places for the loads above a row. A
// ghost field has one proof at most, so what the record knows stands between bars. Each method says by `kept` what it
// leaves of the search: its rows are a field, since every method reads them, and `&mut self` lends that too.
#[derive(Drop)]
struct Search<'a, const SETS: usize, const TASKS: usize> {
    rows: &'a [RowNumbers],
    sets: [u8; SETS],
    worst: [Load; TASKS],
    best: [Load; TASKS],
    ghost lent: { Lent rows.now },
    ghost sets_held: { 2 ^ length rows.now ≤ SETS },
    ghost tasks_held: { length rows.now ≤ TASKS },
    ghost recorded: { ∥ Recorded stable (table_of rows.now) sets ∥₁ },
}

impl<const SETS: usize, const TASKS: usize> Search<'_, SETS, TASKS> {
    // The loads of set m's rows are put at the front of the places, and the rows are counted.
    fn gather(&mut self, m: usize) -> usize
        ensures gathered { Gathered (table_of self.old.rows.now) m self.new.worst self.new.best result }
        ensures kept { (self.new.rows.now ≡ self.old.rows.now) × (self.new.sets ≡ self.old.sets) }
    {
        let rows = self.rows;
        let mut count: usize = 0;
        let mut rest = m;
        // Every row is put, and the next overwrites one outside the set: no branch for the processor to mispredict.
        for row in rows {
            self.worst[count] = load_at_worst(row);
            self.best[count] = load_at_best(row);
            count += rest % 2;
            rest /= 2;
        }
        count
    }

    // Whether row i of set m is stable as its lowest row, under the rest of the set, over rows that block it for some
    // ticks; where all its jobs are not to be searched, it may stay open.
    fn stable_under(&mut self, m: usize, i: usize, blocked: u64, all_jobs: bool) -> Option<bool>
        requires { (i < length self.old.rows.now) × (m / 2 ^ i % 2 ≡ 1)
            × (blocked ≡ blocking (others m (table_of self.old.rows.now))) }
        ensures fits { FitsSaid (table_of self.old.rows.now) m i result }
        ensures decided { Decided all_jobs result }
        ensures kept { (self.new.rows.now ≡ self.old.rows.now) × (self.new.sets ≡ self.old.sets) }
    {
        let rows = self.rows;
        let count = self.gather(m - power(i));
        let above = Above {
            worst: &self.worst[..count],
            best: &self.best[..count],
        };
        stable_under(&rows[i], blocked, above, all_jobs)
    }

    // Whether row i may go lowest in set m: it is in the set and stable there, and the rest isn't known to have no
    // order. Open where only its later jobs say whether it is stable: there may be tens of thousands, and where the rest
    // has no order they do not count.
    fn may_go(&mut self, m: usize, i: usize, blocked: u64) -> Option<bool>
        requires { (m < 2 ^ length self.old.rows.now) × (i < length self.old.rows.now)
            × (blocked ≡ blocking (others m (table_of self.old.rows.now))) }
        ensures goes { MayGo (table_of self.old.rows.now) m i result }
        ensures kept { (self.new.rows.now ≡ self.old.rows.now) × (self.new.sets ≡ self.old.sets) }
    {
        if (m >> i) % 2 == 0 {
            return Some(false);
        }
        if self.sets[m - power(i)] == NO_ORDER {
            return Some(false);
        }
        self.stable_under(m, i, blocked, false)
    }

    // Whether row i of set m, which may go lowest, is stable: by its later jobs, where it stayed open.
    fn fits(&mut self, m: usize, i: usize, blocked: u64, may: Option<bool>) -> bool
        requires places { (i < length self.old.rows.now) × (m / 2 ^ i % 2 ≡ 1)
            × (blocked ≡ blocking (others m (table_of self.old.rows.now))) }
        requires said { FitsSaid (table_of self.old.rows.now) m i may }
        ensures fits { result ≡ fits stable (table_of self.old.rows.now) m i }
        ensures kept { (self.new.rows.now ≡ self.old.rows.now) × (self.new.sets ≡ self.old.sets) }
    {
        if let Some(stable) = may {
            return stable;
        }
        self.stable_under(m, i, blocked, true).unwrap_or(false)
    }

    // The first row of the table that goes lowest in set m. The rows below it are those outside the set, whose largest
    // hold is known; a row that goes lowest is outside the rest.
    #[cycle(lowest_settled)]
    fn lowest(&mut self, m: usize, largest: u64) -> Option<u8>
        requires { (1 ≤ m) × (m < 2 ^ length self.old.rows.now)
            × (largest ≡ largest_hold (others m (table_of self.old.rows.now))) }
        ensures found { LowestFound stable (table_of self.old.rows.now) m self.new.sets result }
        ensures kept { self.new.rows.now ≡ self.old.rows.now }
    {
        let rows = self.rows;
        let blocked = blocking_time(largest);
        for (i, row) in rows.iter().enumerate() {
            let may = self.may_go(m, i, blocked);
            if may.unwrap_or(true) {
                let outside = larger(row[HOLD], largest);
                if self.settled(m - power(i), outside) {
                    if self.fits(m, i, blocked, may) {
                        return Some(i as u8);
                    }
                }
            }
        }
        None
    }

    // Whether set m has an order, with the largest hold of the rows outside it; the record then has the set.
    #[cycle(lowest_settled)]
    fn settled(&mut self, m: usize, largest: u64) -> bool
        requires { (m < 2 ^ length self.old.rows.now)
            × (largest ≡ largest_hold (others m (table_of self.old.rows.now))) }
        ensures settled { Settled stable (table_of self.old.rows.now) m self.new.sets result }
        ensures kept { self.new.rows.now ≡ self.old.rows.now }
    {
        if m == 0 {
            return true;
        }
        let known = self.sets[m];
        if known != UNKNOWN {
            return known != NO_ORDER;
        }
        let found = self.lowest(m, largest);
        self.sets[m] = found.unwrap_or(NO_ORDER);
        found.is_some()
    }

    // The tasks of set m's order, read off the record into as many places as the set has rows: those of the set without
    // its lowest row, then that row's.
    fn rebuild(&self, m: usize, tasks: &mut [u16])
        requires { (m < 2 ^ length self.now.rows.now)
            × Chained self.now.rows.now self.now.sets (length tasks.old) m }
        ensures { tasks.new ≡ chain_tasks self.now.rows.now self.now.sets (length tasks.old) m }
    {
        let count = tasks.len();
        if 0 < count {
            let above = count - 1;
            let i = self.sets[m] as usize;
            self.rebuild(m - power(i), &mut tasks[..above]);
            tasks[above] = self.rows[i][TASK] as u16;
        }
    }

    // The order of all rows, those of set m, read off the record.
    fn read_off(&self, m: usize) -> Order
        requires { (m < 2 ^ length self.now.rows.now)
            × Chained self.now.rows.now self.now.sets (length self.now.rows.now) m }
        ensures { result ≡ ranking (chain_tasks self.now.rows.now self.now.sets (length self.now.rows.now) m) }
    {
        let count = self.rows.len();
        let mut tasks = [0u16; MAX_TASKS];
        self.rebuild(m, &mut tasks[..count]);
        Order { tasks, count }
    }

    // The order of the rows by the rule.
    fn order(&mut self) -> Option<Order>
        ensures { Chooses (table_of self.old.rows.now) result }
    {
        let all = power(self.rows.len()) - 1;
        if self.settled(all, 0) {
            return Some(self.read_off(all));
        }
        None
    }
}

// The order of rows by the rule, with a record for so many sets and places for so many tasks.
fn order_within<const SETS: usize, const TASKS: usize>(rows: &[RowNumbers]) -> Option<Order>
    requires lent { Lent rows.now }
    requires sets_held { (2 ^ length rows.now ≤ SETS) × (SETS ≤ max_buffer) }
    requires tasks_held { (length rows.now ≤ TASKS) × (TASKS ≤ max_tasks) }
    ensures { Chooses (table_of rows.now) result }
{
    let mut search: Search<'_, SETS, TASKS> = Search {
        rows,
        sets: [UNKNOWN; SETS],
        worst: [Load::default(); TASKS],
        best: [Load::default(); TASKS],
    };
    search.order()
}

// The order of rows by the rule, with the longer records of sets. They are in a frame of their own, whose pages a
// table of few tasks does not touch: in the caller's frame they made a table of one task an eighth slower.
#[inline(never)]
fn choose_long(rows: &[RowNumbers]) -> Option<Order>
    requires { Lent rows.now }
    ensures { Chooses (table_of rows.now) result }
{
    let n = rows.len();
    if n <= MORE_TASKS {
        return order_within::<MORE_SETS, MORE_TASKS>(rows);
    }
    if n <= MANY_TASKS {
        return order_within::<MANY_SETS, MANY_TASKS>(rows);
    }
    order_within::<MOST_SETS, MAX_TASKS>(rows)
}

// The order of rows by the rule. n rows have 2 to the power n sets: fewer rows have a shorter record, which is sooner
// filled. What rows it takes is a clause here and in the two functions above: a type for it would be made for this call
// alone, and taken apart again in `order_within`.
pub fn choose(rows: &[RowNumbers]) -> Option<Order>
    requires { Lent rows.now }
    ensures { Chooses (table_of rows.now) result }
{
    let n = rows.len();
    if n <= FEW_TASKS {
        return order_within::<FEW_SETS, FEW_TASKS>(rows);
    }
    if n <= SOME_TASKS {
        return order_within::<SOME_SETS, SOME_TASKS>(rows);
    }
    choose_long(rows)
}

// The order of a table's rows by the rule. For callers who have rows as records, the form that document 01 names.
pub fn order_of(rows: &[Row]) -> Option<Order>
    requires { TableRows (as_rows rows.now) }
    ensures { Chooses (as_rows rows.now) result }
{
    let mut numbers = [0u64; NUMBERS];
    put_rows(rows, &mut numbers);
    choose(rows_from(&numbers, rows.len()))
}
