// The run of a board with fixed priorities, tick by tick, and the text of the jobs that it finishes. No job holds the
// processor: every tick goes by rank.
#![tactic(auto)]

ghost use Rattle.std.specs.Prelude.{◌≤◌, length};
ghost use Rattle.text.specs.Buffers.{Wrote};
ghost use Rattle.watch_demands.specs.Runs.{job_text};
ghost use Rattle.watch_runs.specs.inside.Runs.{run_room, PutIf, Startable, Runs, RunsOrder};

pub use owners::fill_owners;
use plans::Refusal;
use rows::MAX_TASKS;
pub use steps::{Board, Rank};
use steps::{Pending, begin, step};
use text::{put_bytes, put_line};

// owners.rt: whose each length is. steps.rt: a tick.
mod owners;
mod steps;

// The longest lines of a job: three keys with their line feeds, and three numbers of twenty digits.
const JOB_ROOM: usize = 83;

// A job that has finished.
#[derive(Clone, Copy)]
struct FinishedJob {
    task: u64,
    release: u64,
    finish: u64,
}

// A job's three lines, in a buffer that has room for any.
fn job_lines(lines: &mut [u8], job: FinishedJob) -> usize
    requires { length (job_text job.task job.release job.finish) ≤ length lines.old }
    ensures { Wrote (job_text job.task job.release job.finish) lines.old lines.new result }
{
    let mut at = put_line(lines, b"task=", job.task);
    at += put_line(&mut lines[at..], b"release=", job.release);
    at += put_line(&mut lines[at..], b"finish=", job.finish);
    at
}

// A job's lines at an offset, if they fit; and where they end, whether or not they do. The offset is a parameter, since it
// lies past the buffer's end where the lines before it did not fit.
fn put_job(out: &mut [u8], at: usize, job: FinishedJob) -> usize
    requires { at ≤ run_room }
    ensures { PutIf (job_text job.task job.release job.finish) at out.old out.new result }
{
    let mut lines = [0u8; JOB_ROOM];
    let long = job_lines(&mut lines, job);
    let end = at + long;
    if out.len() < end {
        return end;
    }
    at + put_bytes(&mut out[at..], &lines[..long])
}

// A run of some ticks from its first releases on: the text of what it finishes, as far as it fits, and its length.
fn run(out: &mut [u8], ticks: u64, board: &Board) -> usize
    requires { Startable ticks board.now }
    ensures { Runs ticks board.now out.old out.new result }
{
    let mut jobs = [Pending::default(); MAX_TASKS];
    let pending = &mut jobs[..board.ranks.len()];
    begin(pending, board);
    let mut end = 0;
    for t in 0..ticks {
        if let Some(done) = step(t, pending, board) {
            let job = FinishedJob {
                task: board.ranks[done.rank].task,
                release: done.release,
                finish: t + 1,
            };
            end = put_job(out, end, job);
        }
    }
    end
}

// The run of an order: the text of what it finishes within the ticks, or no room for it. The text is measured before it
// is written, so that one that does not fit leaves `out` as it was.
pub fn run_order(out: &mut [u8], ticks: u64, board: &Board) -> Result<usize, Refusal>
    requires { Startable ticks board.now }
    ensures { RunsOrder ticks board.now out.old out.new result }
{
    let mut none = [0u8; 1];
    let long = run(&mut none, ticks, board);
    if out.len() < long {
        return Err(Refusal::NoRoom);
    }
    run(out, ticks, board);
    Ok(long)
}
