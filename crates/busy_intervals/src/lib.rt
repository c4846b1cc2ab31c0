// W of a task that may overrun its period: the longest response in its busy interval, which is searched job after job.
#![tactic(auto)]

ghost use Rattle.std.specs.Prelude.{◌≡◌, Some, ◌+◌, ◌≤◌};
ghost use Rattle.rows.specs.Rows.{max_ticks};
ghost use Rattle.responses.specs.Interference.{least_fixed};
ghost use Rattle.responses.specs.BusyIntervals.{latest_within};
ghost use Rattle.fixed_points.specs.inside.Values.{found};
ghost use Rattle.busy_intervals.specs.inside.Finishes.{finishes, limit_for, InLimits, Stretch};

use basics::larger;
use fixed_points::{Tasks, ceil, least_fixed, least_from, steady_until};
use rows::Row;

// What the search takes of a task: what a job of it takes at most, the ticks for which rows below block it, its period and
// its deadline.
#[derive(Clone, Copy)]
pub struct Times {
    pub cost: u64,
    pub blocked: u64,
    pub period: u64,
    pub deadline: u64,
    pub ghost in_limits: { InLimits cost blocked period deadline },
}

// Up to where a job is searched that is late past a tick: nothing is found past the most ticks.
fn limit_for(due: u64) -> u64
    ensures limit { result ≡ limit_for due }
    ensures within { result ≤ max_ticks }
{
    if due <= Row::TICKS_MAX {
        due
    } else {
        Row::TICKS_MAX
    }
}

// A job of the interval: where its search began, where it is done, and when the next is released.
#[derive(Clone, Copy)]
struct Job {
    begun: u64,
    finish: u64,
    next: u64,
}

// How many jobs follow without a pause and without a release above, where none was released in this job's time either:
// each is done a cost after the one before, and takes no longer than that. So they need no search, and change no W.
fn jobs_behind(job: Job, task: Times, above: Tasks) -> u64
    requires { (1 ≤ job.finish) × (job.finish ≤ max_ticks) }
    ensures { Stretch task.cost task.period above.entry.loads.now job.finish job.next result }
{
    if job.begun != job.finish {
        return 0;
    }
    if job.finish <= job.next {
        return 0;
    }
    let room = (steady_until(job.finish, above) - job.finish) / task.cost;
    let gained = task.period - task.cost;
    if gained == 0 {
        return room;
    }
    room.min(ceil(job.finish - job.next, gained))
}

// The response of the interval's first job, if that is in time.
pub fn first_response(task: Times, above: Tasks) -> Option<u64>
    ensures { result ≡ found (least_fixed (task.cost + task.blocked) task.deadline above.entry.loads.now) }
{
    least_fixed(task.cost + task.blocked, task.deadline, above)
}

// W, if the task is not late, where the first job is in time. The first jobs of the interval are done at `finish`, and the
// next is released at `next`. A job more takes a cost more, so no solution lies below the last and that cost. A search
// that finds none up to the deadline of its job shows the task late.
pub fn latest_from(first: u64, task: Times, above: Tasks) -> Option<u64>
    requires { Some first ≡ found (least_fixed (task.cost + task.blocked) task.deadline above.loads.now) }
    ensures { result ≡ found (latest_within (finishes task.cost task.blocked above.entry.loads.now)
        task.period task.deadline) }
{
    let mut base = task.cost + task.blocked;
    let mut finish = first;
    let mut longest = first;
    let mut next = task.period;
    while next < finish {
        base += task.cost;
        let limit = limit_for(next + task.deadline);
        let begun = finish + task.cost;
        finish = least_from(begun, base, limit, above)?;
        longest = larger(longest, finish - next);
        next += task.period;
        let job = Job {
            begun,
            finish,
            next,
        };
        let jobs = jobs_behind(job, task, above);
        base += jobs * task.cost;
        finish += jobs * task.cost;
        next += jobs * task.period;
    }
    Some(longest)
}

// W, if the task is not late.
pub fn latest_response(task: Times, above: Tasks) -> Option<u64>
    ensures { result ≡ found (latest_within (finishes task.cost task.blocked above.entry.loads.now)
        task.period task.deadline) }
{
    let first = first_response(task, above)?;
    latest_from(first, task, above)
}
