// A tick of the board. Of each rank it keeps the oldest unfinished job, whether or not its release has come. So a release
// needs no code, and several pending jobs of one rank are no case of their own.
ghost use Rattle.std.specs.Prelude.{◌≡◌, length};
ghost use Rattle.watch_runs.specs.inside.States.{TurnIs, length_in, Begins, Steady, Steps};

use super::owners::{next_slot, seek};

// A rank: its task, its first release, its period, and the most ticks that a job of it takes. The default stands where no
// rank is known yet.
#[derive(Clone, Copy, Default)]
pub struct Rank {
    pub task: u64,
    pub offset: u64,
    pub period: u64,
    pub cost: u64,
}

// What a run knows: its ranks, the highest first, and the lengths of the first jobs, with the rank of each. The rank
// of each length is found before the lengths are read, so that the two stand in arrays of their own.
#[derive(Clone, Copy)]
pub struct Board<'a> {
    pub ranks: &'a [Rank],
    pub owners: &'a [usize],
    pub lengths: &'a [u64],
}

// A rank's oldest unfinished job: its release, the ticks that it still needs, and its slot among the lengths. The default
// stands where no job is known yet.
#[derive(Clone, Copy, Default)]
pub struct Pending {
    pub start: u64,
    pub left: u64,
    pub slot: Option<usize>,
}

// The rank and the release of a job that a tick finishes.
#[derive(Clone, Copy)]
pub struct Finish {
    pub rank: usize,
    pub release: u64,
}

// The first rank with a job to run at tick t.
fn turn_of(t: u64, pending: &[Pending]) -> Option<usize>
    ensures { TurnIs t pending.now result }
{
    pending.iter().position(|job| job.start <= t)
}

// The length in a slot; with no slot, the cost.
fn length_at(lengths: &[u64], slot: Option<usize>, cost: u64) -> u64
    ensures { result ≡ length_in lengths.now cost slot }
{
    slot.and_then(|m| lengths.get(m)).copied().unwrap_or(cost)
}

// The first job of each rank. The index is the rank itself, by which its slots are sought.
pub fn begin(pending: &mut [Pending], board: &Board)
    requires { length pending.old ≡ length board.now.ranks.now }
    ensures { Begins board.now pending.new }
{
    for (j, job) in pending.iter_mut().enumerate() {
        let rank = board.ranks[j];
        let slot = seek(board.owners, 0, j);
        *job = Pending {
            start: rank.offset,
            left: length_at(board.lengths, slot, rank.cost),
            slot,
        };
    }
}

// A tick: the job whose turn it is has one tick less to go, or it ends and its rank's next job takes its place.
pub fn step(t: u64, pending: &mut [Pending], board: &Board) -> Option<Finish>
    requires { Steady t pending.old board.now }
    ensures { Steps t board.now pending.old pending.new result }
{
    let rank = turn_of(t, pending)?;
    let job = &mut pending[rank];
    if 1 < job.left {
        job.left -= 1;
        return None;
    }
    let release = job.start;
    let slot = next_slot(board.owners, job.slot, rank);
    job.start += board.ranks[rank].period;
    job.left = length_at(board.lengths, slot, board.ranks[rank].cost);
    job.slot = slot;
    Some(Finish { rank, release })
}
