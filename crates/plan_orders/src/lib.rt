// An order's plan: the figures of each rank are found and written in one pass. And what a program prints of an answer.
#![tactic(auto)]

ghost use Rattle.std.specs.Prelude.{◌≡◌, true, ◌*◌, ◌^◌, ◌≤◌, ◌<◌, length, replicate};
ghost use Rattle.text.specs.Buffers.{Wrote};
ghost use Rattle.rows.specs.Rows.{max_tasks, in_range, all_rows};
ghost use Rattle.rows.specs.inside.LentOrders.{rows_in_order};
ghost use Rattle.fixed_points.specs.inside.Loads.{loads_max};
ghost use Rattle.analysis.specs.inside.Above.{Filled};
ghost use Rattle.plans.specs.Plans.{rank_room, room_for, plan_room};
ghost use Rattle.plans.specs.Outcomes.{fitted, if_in_time, Written};
ghost use Rattle.plans.specs.inside.Prints.{to_print};
ghost use Rattle.plan_orders.specs.inside.Ranks.{FirstLate, PutsRanks, PutsPlan};

use analysis::{Above, blocking_below, blocking_from, figures_under, fill_loads};
use plan_lines::{put_head, put_rank, put_refusal};
use plans::{Entry, Refusal};
use responses::Load;
use rows::{LentOrder, MAX_TASKS, TASK};
use text::put_bytes;

// Room for the lines before a plan's ranks.
const HEAD_ROOM: usize = 28;

// Room for the lines of a rank.
const RANK_ROOM: usize = 79;

// Room for every plan.
pub const ROOM: usize = HEAD_ROOM + MAX_TASKS * RANK_ROOM;

// A small order has a room of its own, which is sooner filled.
const SMALL_ORDER: usize = 8;

const SMALL_ROOM: usize = HEAD_ROOM + SMALL_ORDER * RANK_ROOM;

// An order of which a plan can be made: each of its rows is in range, and there are no more than have loads.
#[derive(Clone, Copy)]
pub struct OrderInLimits<'a> {
    pub lent: LentOrder<'a>,
    pub ghost few: { length (rows_in_order lent) ≤ loads_max },
    pub ghost is_in_range: { all_rows in_range (rows_in_order lent) ≡ true },
}

// A buffer with room for every plan. The crane and the watcher have one each, by the same line: a function of all three
// would ask for the room, which is all that they say.
pub fn buffer() -> [u8; ROOM]
    ensures { result ≡ replicate plan_room 0 }
{
    [0; ROOM]
}

// The ranks of an order, the highest first, up to the first late one; the loads of its rows are lent. How long their text
// is, or the first late rank, counted from 1. `as` loses no number: a row's task is in range, and there are no more ranks
// than loads.
fn put_ranks(out: &mut [u8], order: OrderInLimits, loads: Above) -> Result<usize, u32>
    requires filled { Filled (rows_in_order order.lent) loads.worst.now loads.best.now }
    requires room { length (rows_in_order order.lent) * rank_room ≤ length out.old }
    ensures { PutsRanks (rows_in_order order.entry.lent) out.old out.new result }
{
    let mut at = 0;
    // The blocking time of the rows from index i on, and then of those behind it.
    let mut blocked = blocking_from(order.lent);
    for (i, position) in order.lent.positions.iter().enumerate() {
        let row = &order.lent.rows[*position];
        blocked = blocking_below(order.lent.behind(i), blocked);
        let above = Above {
            worst: &loads.worst[..i],
            best: &loads.best[..i],
        };
        let Ok(figures) = figures_under(row, blocked, above) else {
            return Err(i as u32 + 1);
        };
        let entry = Entry {
            task: row[TASK] as u32,
            best: figures.best,
            worst: figures.worst,
            jitter: figures.jitter,
            margin: figures.margin,
        };
        at += put_rank(&mut out[at..], i as u64 + 1, entry);
    }
    Ok(at)
}

// The plan of an order, up to the first late rank; with loads of so many rows.
fn put_plan<const MOST: usize>(
    text: &mut [u8],
    board: u16,
    order: OrderInLimits,
) -> Result<usize, u32>
    requires room { room_for (length (rows_in_order order.lent)) ≤ length text.old }
    requires most { (length (rows_in_order order.lent) ≤ MOST) × (MOST < 2 ^ 59) }
    ensures { PutsPlan board (rows_in_order order.entry.lent) text.old text.new result }
{
    let n = order.lent.len();
    let mut worst = [Load::default(); MOST];
    let mut best = [Load::default(); MOST];
    let worst = &mut worst[..n];
    let best = &mut best[..n];
    fill_loads(order.lent, worst, best);
    let head = put_head(text, board, n);
    let ranks = put_ranks(&mut text[head..], order, Above { worst, best })?;
    Ok(head + ranks)
}

// The first late rank of an order, counted from 1. Its plan is found as far as that rank, and is not wanted.
pub fn late_rank(order: OrderInLimits) -> Option<u32>
    requires { length (rows_in_order order.lent) ≤ max_tasks }
    ensures { FirstLate (rows_in_order order.entry.lent) result }
{
    let mut text = [0; ROOM];
    put_plan::<MAX_TASKS>(&mut text, 0, order).err()
}

// A text is put whole at the start of out, where it fits; else out stays as it was.
pub fn put_whole(out: &mut [u8], text: &[u8]) -> Result<usize, Refusal>
    ensures { Written (fitted (length out.old) text.now) out.old out.new result }
{
    if out.len() < text.len() {
        return Err(Refusal::NoRoom);
    }
    Ok(put_bytes(out, text))
}

// The plan of an order, or its refusal. It is written whole into a text of so many bytes, so that a refusal leaves out as
// it was; with loads of so many rows. No array is as long as the bounds of the two lengths.
pub fn plan_in<const MOST: usize, const TEXT: usize>(
    out: &mut [u8],
    board: u16,
    order: OrderInLimits,
) -> Result<usize, Refusal>
    requires room { (room_for (length (rows_in_order order.lent)) ≤ TEXT) × (TEXT < 2 ^ 63) }
    requires most { (length (rows_in_order order.lent) ≤ MOST) × (MOST < 2 ^ 59) }
    ensures { Written (if_in_time (length out.old) board (rows_in_order order.entry.lent)) out.old out.new result }
{
    let mut text = [0; TEXT];
    match put_plan::<MOST>(&mut text, board, order) {
        Ok(long) => put_whole(out, &text[..long]),
        Err(rank) => Err(Refusal::Late { rank }),
    }
}

// The same for no more rows than a table has.
pub fn plan_order(out: &mut [u8], board: u16, order: OrderInLimits) -> Result<usize, Refusal>
    requires { length (rows_in_order order.lent) ≤ max_tasks }
    ensures { Written (if_in_time (length out.old) board (rows_in_order order.entry.lent)) out.old out.new result }
{
    if order.lent.len() <= SMALL_ORDER {
        return plan_in::<SMALL_ORDER, SMALL_ROOM>(out, board, order);
    }
    plan_in::<MAX_TASKS, ROOM>(out, board, order)
}

// What a program prints of an answer: the plan that stands in the buffer, as long as it says and the buffer is, or the
// refusal's lines. The four calls that print by this stand apart: what they have in common is this call, and each promises
// what its own program prints.
pub fn printed<const LONG: usize>(answer: Result<usize, Refusal>, out: &mut [u8; LONG]) -> usize
    requires { plan_room ≤ LONG }
    ensures { Wrote (to_print answer out.old) out.old out.new result }
{
    match answer {
        Ok(long) => long.min(LONG),
        Err(refusal) => put_refusal(out, refusal),
    }
}
