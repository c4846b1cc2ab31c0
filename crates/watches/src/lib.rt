// The watcher's calls: a text with a table, its ranks and a run, and the jobs that its board finishes. Each `as` is proved
// to lose nothing.
#![tactic(auto)]

ghost use Rattle.std.specs.Prelude.{◌≡◌, ◌≤◌, length, replicate};
ghost use Rattle.io.specs.Counts.{IsPrefixLen};
ghost use Rattle.text.specs.Buffers.{Wrote};
ghost use Rattle.rows.specs.Rows.{max_ticks};
ghost use Rattle.plans.specs.Outcomes.{Written};
ghost use Rattle.watch_demands.specs.Calls.{watched, watch_room, watcher_prints};
ghost use Rattle.watch_demands.specs.Demands.{WatchSays};
ghost use Rattle.watches.specs.inside.Stages.{AtReleases, Laid, AtTicks, AtLengths, RunsLaid};

use front::read_front;
use lines::{Lines, Range, read_numbers};
use plan_orders::{OrderInLimits, late_rank, printed};
use plans::Refusal;
use ranking::{Ranking, fill_ranks, place_ranks};
use readers::{MOST_NUMBERS, Progress, Table};
use rows::{LentOrder, MAX_TASKS};
use text::{Cursor, end_at, line_at};
use watch_runs::{Board, Rank, fill_owners, run_order};

// front.rt: the table. lines.rt: lines of one key. ranking.rt: the table's order.
mod front;
mod lines;
mod ranking;

// The limits of a first release, of the ticks, and of the number of lengths.
const RELEASES: Range = Range {
    low: 0,
    high: 1_000_000,
};

const TICKS_MIN: u64 = 1;

const TICKS_MAX: u64 = 1_000_000;

const LENGTHS_MIN: u64 = 0;

const LENGTHS_MAX: u64 = 2_048;

const MAX_LENGTHS: usize = LENGTHS_MAX as usize;

// Room for what the program prints.
pub const WATCH_ROOM: usize = 65_536;

// A buffer with that room (`plan_orders::buffer`).
pub fn buffer() -> [u8; WATCH_ROOM]
    ensures { result ≡ replicate watch_room 0 }
{
    [0; WATCH_ROOM]
}

// How long a run is, and how many lengths it has.
#[derive(Clone, Copy)]
struct Extent {
    ticks: u64,
    lengths: usize,
}

// What the run of an order comes to: refused with its first late rank, or the lines of the jobs that it finishes.
fn watch_run(out: &mut [u8], ranking: &Ranking, ticks: u64, board: &Board) -> Result<usize, Refusal>
    requires laid { Laid ranking.now }
    requires ranks { board.now.ranks.now ≡ ranking.now.ranks.now }
    requires few_ticks { ticks ≤ max_ticks }
    ensures { RunsLaid ranking.now ticks board.now.owners.now board.now.lengths.now out.old out.new result }
{
    if let Some(rank) = late_rank(ranking.order) {
        return Err(Refusal::Late { rank });
    }
    run_order(out, ticks, board)
}

// The lengths, each in the range of its own job's row, and the end of the text; and then the run.
fn watch_lengths(
    from: Cursor,
    out: &mut [u8],
    ranking: &Ranking,
    run: Extent,
) -> Result<usize, Refusal>
    requires { AtLengths from.text.now from.offset from.line ranking.now run.ticks run.lengths }
    ensures { Written (watched from.entry.text.now (length out.old)) out.old out.new result }
{
    let mut owners = [0usize; MAX_LENGTHS];
    let owners = &mut owners[..run.lengths];
    fill_owners(owners, ranking.ranks);
    let mut lengths = [0u64; MAX_LENGTHS];
    let lengths = &mut lengths[..run.lengths];
    let lines = Lines {
        key: b"length=",
        ranges: ranking.ranges,
        owners,
    };
    let end = read_numbers(from, &lines, lengths)?;
    end_at(Cursor {
        offset: end,
        line: from.line + run.lengths as u32,
        ..from
    })?;
    let board = Board {
        ranks: ranking.ranks,
        owners,
        lengths,
    };
    watch_run(out, ranking, run.ticks, &board)
}

// The ticks and the number of lengths, and what follows them.
fn watch_order(from: Cursor, out: &mut [u8], ranking: &Ranking) -> Result<usize, Refusal>
    requires { AtTicks from.text.now from.offset from.line ranking.now }
    ensures { Written (watched from.entry.text.now (length out.old)) out.old out.new result }
{
    let ticks = line_at(from, b"ticks=", TICKS_MIN, TICKS_MAX)?;
    let at_count = Cursor {
        offset: ticks.next,
        line: from.line + 1,
        ..from
    };
    let count = line_at(at_count, b"lengths=", LENGTHS_MIN, LENGTHS_MAX)?;
    let at_lengths = Cursor {
        offset: count.next,
        line: from.line + 2,
        ..from
    };
    let run = Extent {
        ticks: ticks.value,
        lengths: count.value as usize,
    };
    watch_lengths(at_lengths, out, ranking, run)
}

// The first releases of a table's rows, and what follows them.
fn watch_table(
    text: &[u8],
    out: &mut [u8],
    front: Progress,
    numbers: &[u64],
) -> Result<usize, Refusal>
    requires { AtReleases text.now front.offset front.line numbers.now front.stand.count }
    ensures { Written (watched text.now (length out.old)) out.old out.new result }
{
    let n = front.stand.count;
    let owners = [0usize; MAX_TASKS];
    let mut releases = [0u64; MAX_TASKS];
    let releases = &mut releases[..n];
    let lines = Lines {
        key: b"release=",
        ranges: &[RELEASES],
        owners: &owners[..n],
    };
    let next = read_numbers(front.cursor(text), &lines, releases)?;
    let table = Table { numbers, count: n };
    let mut positions = [0usize; MAX_TASKS];
    let positions = &mut positions[..n];
    place_ranks(table, positions);
    let lent = LentOrder {
        rows: table.rows(),
        positions,
    };
    let order = OrderInLimits { lent };
    let mut ranks = [Rank::default(); MAX_TASKS];
    let ranks = &mut ranks[..n];
    let mut ranges = [Range::default(); MAX_TASKS];
    let ranges = &mut ranges[..n];
    fill_ranks(order, releases, ranks, ranges);
    let ranking = Ranking {
        order,
        ranks,
        ranges,
    };
    let at_ticks = Cursor {
        text,
        offset: next,
        line: front.line + n as u32,
    };
    watch_order(at_ticks, out, &ranking)
}

// The watcher: the jobs that a board finishes, run as a text says. The lines are measured before they are written, so
// that a refusal leaves `out` as it was.
pub fn watch_board(text: &[u8], out: &mut [u8]) -> Result<usize, Refusal>
    ensures { WatchSays text.now out.old out.new result }
{
    let mut numbers = [0u64; MOST_NUMBERS];
    let front = read_front(text, &mut numbers)?;
    watch_table(text, out, front, &numbers)
}

// What the watcher's program prints for the text it took: the lines of the jobs, or the three lines of its refusal.
pub fn print_watch(text: &[u8], out: &mut [u8; WATCH_ROOM]) -> usize
    ensures wrote { Wrote (watcher_prints text.now) out.old out.new result }
    ensures prefix_len { IsPrefixLen result out.new }
{
    let watched = watch_board(text, out);
    printed(watched, out)
}
