// The values that the search of W tries for some tasks, one after another, and the W that it finds, or that the task is
// late. It is the planner's own search: how many values there are it says itself (`fixed_points::try_values`), and each is
// found by its own first value and step.
#![tactic(auto)]

ghost use Rattle.std.specs.Prelude.{◌≡◌, true, ◌≤◌};
ghost use Rattle.rows.specs.Rows.{max_ticks, max_switch};
ghost use Rattle.fixed_points.specs.inside.Loads.{base_max, Loads};
ghost use Rattle.value_cases.specs.Loads.{in_range};

use analysis::blocking_time;
use fixed_points::{Tasks, first_value, least_fixed, next_value, try_values};
use responses::Load;
use rows::Row;

const STDOUT: i32 = 1;

// So many that no sum of the search overflows.
const MOST_TASKS: usize = 64;

fn in_range(task: Load) -> bool
    ensures { result ≡ in_range task }
{
    (Row::TICKS_MIN <= task.cost) & (task.cost <= task.period) & (task.period <= Row::TICKS_MAX)
}

// The first value and those after so many steps.
fn print_values(base: u64, limit: u64, tasks: Tasks, steps: u64)
    requires { (1 ≤ base) × (base ≤ base_max) × (limit ≤ max_ticks) }
{
    let mut value = first_value(base, tasks);
    io::print_decimal(STDOUT, value);
    for _ in 0..steps {
        value = next_value(base, limit, tasks, value);
        io::write_all(STDOUT, b" ");
        io::print_decimal(STDOUT, value);
    }
}

// The values up to the last that the search tries, and what is found.
fn print_search(base: u64, limit: u64, tasks: Tasks)
    requires { (1 ≤ base) × (base ≤ base_max) × (limit ≤ max_ticks) }
{
    let tried = try_values(base, limit, tasks);
    print_values(base, limit, tasks, tried.steps);
    let Some(worst) = least_fixed(base, limit, tasks) else {
        io::write_all(STDOUT, b", late\n");
        return;
    };
    io::write_all(STDOUT, b", worst=");
    io::print_decimal(STDOUT, worst);
    io::write_all(STDOUT, b"\n");
}

// Whether some tasks are few, and each in range.
fn all_in_range(tasks: &[Load]) -> bool
    ensures { result ≡ true → Loads tasks.now }
{
    if MOST_TASKS < tasks.len() {
        return false;
    }
    tasks.iter().all(|task| in_range(*task))
}

// A line of its own for a task over a largest hold, below some tasks. Nothing is printed of tasks out of range.
fn show(name: &[u8], task: Load, hold: u64, above: &[Load]) {
    if !in_range(task) {
        return;
    }
    if !all_in_range(above) {
        return;
    }
    if Row::HOLD_MAX < hold {
        return;
    }
    io::write_all(STDOUT, name);
    io::write_all(STDOUT, b": ");
    let own = task.cost + blocking_time(hold);
    print_search(own, task.period, Tasks { loads: above });
}

// A task of a table with some switch.
fn task(period: u64, worst: u64, switch: u64) -> Load
    requires { (worst ≤ max_ticks) × (switch ≤ max_switch) }
{
    let cost = worst + switch;
    Load { period, cost }
}

// What is around document 01's task 13: its period, the largest hold below it, its board's switch, and how many of tasks
// 11 and 12 are above it.
#[derive(Clone, Copy)]
struct Around {
    period: u64,
    hold: u64,
    switch: u64,
    above: usize,
}

// As it is in document 01.
const USUAL: Around = Around {
    period: 200,
    hold: 0,
    switch: 0,
    above: 2,
};

// Task 13.
fn show_13(name: &[u8], x: Around)
    requires { (x.switch ≤ max_switch) × (x.above ≤ 2) }
{
    let above = [task(24, 6, x.switch), task(18, 2, x.switch)];
    show(
        name,
        task(x.period, 19, x.switch),
        x.hold,
        &above[..x.above],
    );
}

fn main() {
    show_13(b"task 13 below 11 and 12", USUAL);
    show_13(b"below 11", Around { above: 1, ..USUAL });
    show_13(b"with nothing above", Around { above: 0, ..USUAL });
    show_13(b"over a hold of 1", Around { hold: 1, ..USUAL });
    show_13(b"over a hold of 3", Around { hold: 3, ..USUAL });
    show_13(b"under a switch of 1", Around { switch: 1, ..USUAL });
    show_13(
        b"over a hold of 3 and under a switch of 1",
        Around {
            hold: 3,
            switch: 1,
            ..USUAL
        },
    );
    show_13(
        b"with a period of 35",
        Around {
            period: 35,
            ..USUAL
        },
    );
    show_13(
        b"with a period of 34",
        Around {
            period: 34,
            ..USUAL
        },
    );
    show_13(
        b"with a period of 27",
        Around {
            period: 27,
            ..USUAL
        },
    );
    show_13(
        b"with a period of 26",
        Around {
            period: 26,
            ..USUAL
        },
    );
    let task_11 = task(24, 6, 0);
    let task_13 = task(200, 19, 0);
    show(b"task 12 below 13", task(18, 2, 0), 0, &[task_13]);
    show(b"task 12 below 11", task(18, 2, 0), 0, &[task_11]);
    show(
        b"two solutions, 2 and 3",
        task(10, 1, 0),
        0,
        &[task(2, 1, 0)],
    );
    show(b"no solution", task(5, 1, 0), 0, &[task(2, 2, 0)]);
    show(b"its own time is its period", task(10, 10, 0), 0, &[]);
    show(b"and a hold of 2 blocks it", task(10, 10, 0), 2, &[]);
}
