// W and E as fixed points: the interference of tasks in a window, and the smallest and the largest window that a base and
// the interference in it fill.
#![tactic(auto)]

ghost use Rattle.std.specs.Prelude.{◌≡◌, ◌+◌, ◌≤◌};
ghost use Rattle.rows.specs.Rows.{max_ticks};
ghost use Rattle.responses.specs.Interference.{ceiling, interference, least_fixed, largest_fixed};
ghost use Rattle.fixed_points.specs.inside.Loads.{base_max, Loads};
ghost use Rattle.fixed_points.specs.inside.Steady.{Steady};
ghost use Rattle.fixed_points.specs.inside.Values.{first_value, next_value, found, Searching, TriesFrom, Tries};

use responses::Load;
use rows::Row;

// Some tasks above a row, by what they take of a window: few enough that no sum overflows, and each with its cost within
// its period.
#[derive(Clone, Copy)]
pub struct Tasks<'a> {
    pub loads: &'a [Load],
    pub ghost in_limits: { Loads loads.now },
}

// x / p rounded up. A window is often within the period, and a test is faster than a division; x + p is far below 2^32,
// and division is faster there than in 64 bits, so that `as` loses nothing.
pub fn ceil(x: u64, p: u64) -> u64
    requires { (1 ≤ x) × (x ≤ max_ticks) × (1 ≤ p) × (p ≤ max_ticks) }
    ensures { result ≡ ceiling x p }
{
    if x <= p {
        return 1;
    }
    ((x + (p - 1)) as u32 / p as u32) as u64
}

// The ticks that tasks take from a window, less some jobs of each.
pub fn interference(window: u64, spared: u64, tasks: Tasks) -> u64
    requires { (window ≤ max_ticks) × (1 ≤ window) × (spared ≤ 1) }
    ensures { result ≡ interference spared window tasks.entry.loads.now }
{
    let mut sum: u64 = 0;
    for task in tasks.loads {
        sum += (ceil(window, task.period) - spared) * task.cost;
    }
    sum
}

// Up to which window no task is released more often than in this one: up to the next release of any.
pub fn steady_until(window: u64, tasks: Tasks) -> u64
    requires { (1 ≤ window) × (window ≤ max_ticks) }
    ensures { Steady window tasks.entry.loads.now result }
{
    let mut until = Row::TICKS_MAX;
    for task in tasks.loads {
        until = until.min(ceil(window, task.period) * task.period);
    }
    until
}

// Where the search of W ends: its last value, and the steps that led to it from the first.
#[derive(Clone, Copy)]
pub struct Tried {
    pub last: u64,
    pub steps: u64,
}

// The base, the limit and the tasks go side by side from here on. A struct of the three, with their bounds, would ask more
// of the callers of the next two: the first value has no limit, and either takes a base of 0.

// The first value that it tries: the base and one job of each task, which is what a window of one tick meets.
pub fn first_value(base: u64, tasks: Tasks) -> u64
    requires { base ≤ base_max }
    ensures { result ≡ first_value base tasks.entry.loads.now }
{
    base + interference(1, 0, tasks)
}

// The value after w, or w itself where the search ends: with a solution, or past the limit, where the task is late.
pub fn next_value(base: u64, limit: u64, tasks: Tasks, w: u64) -> u64
    requires { (1 ≤ w) × (base ≤ base_max) × (limit ≤ max_ticks) }
    ensures { result ≡ next_value base limit tasks.entry.loads.now w }
{
    if limit < w {
        return w;
    }
    base + interference(w, 0, tasks)
}

// The search of W from a value that no solution lies below, until a value is followed by itself.
fn try_from(first: u64, base: u64, limit: u64, tasks: Tasks) -> Tried
    requires base_bound { base ≤ base_max }
    requires limit_bound { limit ≤ max_ticks }
    requires searching { Searching base limit tasks.loads.now first }
    ensures { TriesFrom first base limit tasks.entry.loads.now result }
{
    let mut last = first;
    let mut steps: u64 = 0;
    loop {
        let next = next_value(base, limit, tasks, last);
        if next == last {
            return Tried { last, steps };
        }
        last = next;
        steps += 1;
    }
}

// And from the first value on.
pub fn try_values(base: u64, limit: u64, tasks: Tasks) -> Tried
    requires { (1 ≤ base) × (base ≤ base_max) × (limit ≤ max_ticks) }
    ensures { Tries base limit tasks.entry.loads.now result }
{
    let first = first_value(base, tasks);
    try_from(first, base, limit, tasks)
}

// The smallest w from 1 to the limit with w = base + interference in w, if there is one, where no such w lies below the
// first value that is tried.
pub fn least_from(first: u64, base: u64, limit: u64, tasks: Tasks) -> Option<u64>
    requires base_bound { base ≤ base_max }
    requires limit_bound { limit ≤ max_ticks }
    requires searching { Searching base limit tasks.loads.now first }
    ensures { result ≡ found (least_fixed base limit tasks.entry.loads.now) }
{
    let tried = try_from(first, base, limit, tasks);
    if tried.last <= limit {
        Some(tried.last)
    } else {
        None
    }
}

// And whatever is known of such w.
pub fn least_fixed(base: u64, limit: u64, tasks: Tasks) -> Option<u64>
    requires { (1 ≤ base) × (base ≤ base_max) × (limit ≤ max_ticks) }
    ensures { result ≡ found (least_fixed base limit tasks.entry.loads.now) }
{
    let first = first_value(base, tasks);
    least_from(first, base, limit, tasks)
}

// The largest e from 1 to the limit with e = base + interference in e, one job less of each task.
pub fn largest_fixed(base: u64, limit: u64, tasks: Tasks) -> u64
    requires { (1 ≤ base) × (limit ≤ max_ticks) × (base + interference 1 limit tasks.loads.now ≤ limit) }
    ensures { result ≡ largest_fixed base limit tasks.entry.loads.now }
{
    let mut e = limit;
    loop {
        let demand = base + interference(e, 1, tasks);
        if demand == e {
            return e;
        }
        e = demand;
    }
}
