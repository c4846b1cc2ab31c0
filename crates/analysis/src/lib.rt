// The response analysis: W, E, margin and stability of a row under rows of which the loads are lent, over rows that
// block it for some ticks. Each `as` is proved to lose nothing.
#![tactic(auto)]

ghost use Rattle.std.specs.Prelude.{◌≡◌, true, pos, ◌+◌, ◌-◌, ◌*◌, ◌≤◌, length, drop};
ghost use Rattle.std.proofs.Math.IntN.{sub_ℕ};
ghost use Rattle.std.specs.Int.Signed.{le_z};
ghost use Rattle.basics.specs.Basics.{pick};
ghost use Rattle.rows.specs.Rows.{max_ticks, max_alpha, max_beta, in_range, times_in_range};
ghost use Rattle.responses.specs.Interference.{interference, largest_fixed};
ghost use Rattle.responses.specs.Figures.{worst_load, best_load, blocking, may_hold, margin_at};
ghost use Rattle.rows.specs.inside.Numbers.{row_from};
ghost use Rattle.rows.specs.inside.LentOrders.{rows_in_order};
ghost use Rattle.analysis.specs.inside.Above.{Fillable, Filled, TimesAre, Under, FiguresIn, StableSaid, Decided};

use basics::larger;
use busy_intervals::{Times, first_response, latest_from, latest_response};
use curves::{Responses, curve_margin, points_from};
use fixed_points::{Tasks, largest_fixed};
use responses::{Figures, Load, NoFigures};
use rows::{
    ALPHA, BEST, BETA, DEADLINE, FIRST_POINT, HOLD, LentOrder, PERIOD, POINTS, RowNumbers, SWITCH,
    cost,
};

// The least hold that keeps the processor past a tick.
const LEAST_HOLD: u64 = 2;

// The loads of the rows above a row: by what a job of each takes at most, and at least. They are the two lists of the
// definitions, so that what is promised of a window is an equation with the slice itself; one slice of three numbers would
// be taken apart for it.
#[derive(Clone, Copy)]
pub struct Above<'a> {
    pub worst: &'a [Load],
    pub best: &'a [Load],
}

// How far responses are inside the stability line of alpha and beta.
fn line_margin(alpha: u64, beta: u64, responses: Responses) -> i64
    requires { (alpha ≤ max_alpha) × (beta ≤ max_beta) }
    ensures { result ≡ sub_ℕ beta (1000 * responses.earliest + alpha * (responses.latest - responses.earliest)) }
{
    let used = 1000 * responses.earliest + alpha * responses.jitter();
    beta as i64 - used as i64
}

// How far responses of a row are inside its stability condition: that of its curve, or with no points its line.
pub fn margin(row: &RowNumbers, responses: Responses) -> i64
    requires { in_range (row_from row.now) ≡ true }
    ensures { result ≡ margin_at (row_from row.now) responses.latest responses.earliest }
{
    let points = row[POINTS];
    if points == 0 {
        return line_margin(row[ALPHA], row[BETA], responses);
    }
    let curve = points_from(&row[FIRST_POINT..SWITCH], points as usize);
    curve_margin(curve, responses)
}

// Whether responses of a row are inside its stability condition.
fn is_inside(row: &RowNumbers, responses: Responses) -> bool
    requires { in_range (row_from row.now) ≡ true }
    ensures { result ≡ le_z (pos 0) (margin_at (row_from row.now) responses.latest responses.earliest) }
{
    0 <= margin(row, responses)
}

// The earliest response of a row, whose latest is known, under some rows: in a stretch of its own none of them counts.
fn earliest(row: &RowNumbers, latest: u64, above: Tasks) -> u64
    requires { (in_range (row_from row.now) ≡ true) × (latest ≤ max_ticks)
        × ((row_from row.now).best + interference 1 latest above.loads.now ≤ latest) }
    ensures { let t = row_from row.now in
        result ≡ pick (may_hold t) t.best (largest_fixed t.best latest above.entry.loads.now) }
{
    let best = row[BEST];
    if LEAST_HOLD <= row[HOLD] {
        return best;
    }
    largest_fixed(best, latest, above)
}

// What a largest hold blocks for: all of it but its first tick.
pub fn blocking_time(largest: u64) -> u64
    ensures { result ≡ largest - 1 }
{
    largest.saturating_sub(1)
}

// The blocking time of the rows of an order. A loop and not `map` with `max`: tried, and the proof does not close that
// a closure which reads a row may be called at each position.
pub fn blocking_from(order: LentOrder) -> u64
    ensures { result ≡ blocking (rows_in_order order.entry) }
{
    let mut largest = 0;
    for position in order.positions {
        largest = larger(largest, order.rows[*position][HOLD]);
    }
    blocking_time(largest)
}

// The blocking time of the rows behind the first of an order, by that of all: where that is 0, so is this.
pub fn blocking_below(order: LentOrder, blocked: u64) -> u64
    requires some_row { 1 ≤ length (rows_in_order order) }
    requires blocked_value { blocked ≡ blocking (rows_in_order order) }
    ensures { result ≡ blocking (drop 1 (rows_in_order order.entry)) }
{
    if blocked == 0 {
        return 0;
    }
    blocking_from(order.behind(1))
}

// What a row takes of a window at most, where it stands above another.
pub fn load_at_worst(row: &RowNumbers) -> Load
    requires { times_in_range (row_from row.now) ≡ true }
    ensures { result ≡ worst_load (row_from row.now) }
{
    Load {
        period: row[PERIOD],
        cost: cost(row),
    }
}

// And at least.
pub fn load_at_best(row: &RowNumbers) -> Load
    ensures { result ≡ best_load (row_from row.now) }
{
    Load {
        period: row[PERIOD],
        cost: row[BEST],
    }
}

// The loads of the rows of an order, as many places as rows. By the index k: a `zip` of three is no plainer, and its
// invariant is over three iterators in place of one index.
pub fn fill_loads(order: LentOrder, worst: &mut [Load], best: &mut [Load])
    requires { Fillable (rows_in_order order) (length worst.old) (length best.old) }
    ensures { Filled (rows_in_order order.entry) worst.new best.new }
{
    for (k, position) in order.positions.iter().enumerate() {
        let row = &order.rows[*position];
        worst[k] = load_at_worst(row);
        best[k] = load_at_best(row);
    }
}

// What the search of W takes of a row, which rows below block for some ticks.
fn times_of(row: &RowNumbers, blocked: u64) -> Times
    requires { (in_range (row_from row.now) ≡ true) × (blocked ≤ max_ticks) }
    ensures { TimesAre (row_from row.now) blocked result }
{
    Times {
        cost: cost(row),
        blocked,
        period: row[PERIOD],
        deadline: row[DEADLINE],
    }
}

// Whether a row is stable under some rows, which rows below block for some ticks: what its figures say, and sooner. E is
// found in the time of the busy interval's first job, and no later job has a smaller response; so where the margin is
// below 0 by the first, the others are not searched. Where all jobs are not to be searched, a row that overruns its period
// with its first job stays open.
pub fn stable_under(row: &RowNumbers, blocked: u64, above: Above, all_jobs: bool) -> Option<bool>
    requires { Under (row_from row.now) blocked above.worst.now above.best.now }
    ensures says { StableSaid (row_from row.now) blocked above.entry.worst.now above.entry.best.now result }
    ensures decided { Decided all_jobs result }
{
    let task = times_of(row, blocked);
    let worst = Tasks { loads: above.worst };
    let best = Tasks { loads: above.best };
    let Some(first) = first_response(task, worst) else {
        return Some(false);
    };
    let earliest = earliest(row, first, best);
    let responses = Responses {
        latest: first,
        earliest,
    };
    if !is_inside(row, responses) {
        return Some(false);
    }
    if !all_jobs & (task.period < first) {
        return None;
    }
    let Some(latest) = latest_from(first, task, worst) else {
        return Some(false);
    };
    if latest == first {
        return Some(true);
    }
    Some(is_inside(row, Responses { latest, earliest }))
}

// All figures of a row under some rows, which rows below block for some ticks.
pub fn figures_under(row: &RowNumbers, blocked: u64, above: Above) -> Result<Figures, NoFigures>
    requires { Under (row_from row.now) blocked above.worst.now above.best.now }
    ensures { FiguresIn (row_from row.now) blocked above.entry.worst.now above.entry.best.now result }
{
    let task = times_of(row, blocked);
    let worst = Tasks { loads: above.worst };
    let best = Tasks { loads: above.best };
    let Some(latest) = latest_response(task, worst) else {
        return Err(NoFigures::Late);
    };
    let earliest = earliest(row, latest, best);
    let responses = Responses { latest, earliest };
    let margin = margin(row, responses);
    Ok(Figures {
        worst: latest as u32,
        best: earliest as u32,
        jitter: responses.jitter() as u32,
        margin,
        stable: 0 <= margin,
    })
}
