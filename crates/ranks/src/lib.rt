// The public calls: a table's plan, the figures of an order chosen by hand, and what the programs print.
#![tactic(auto)]

ghost use Rattle.std.specs.Prelude.{◌≡◌, ◌≤◌, length};
ghost use Rattle.io.specs.Counts.{IsPrefixLen};
ghost use Rattle.text.specs.Buffers.{Wrote};
ghost use Rattle.rows.specs.Rows.{rows_for};
ghost use Rattle.rows.specs.inside.Arrays.{ranked};
ghost use Rattle.rows.specs.inside.Lent.{table_of};
ghost use Rattle.readers.specs.inside.Numbers.{most_numbers, Room};
ghost use Rattle.plans.specs.Outcomes.{if_in_time, Written};
ghost use Rattle.demands.specs.Calls.{planner_prints, reviewer_prints};
ghost use Rattle.demands.specs.Demands.{PlanSays, ReviewSays};
ghost use Rattle.ranks.specs.inside.Tasks.{Tasked, RoomFor};

pub use figures::row_figures;
pub use plan_orders::{ROOM, buffer};
use plan_orders::{OrderInLimits, plan_order, printed};
pub use plans::Refusal;
use readers::{
    FEW_NUMBERS, MANY_NUMBERS, MORE_NUMBERS, MOST_NUMBERS, SOME_NUMBERS, Table, fits_in, read_table,
};
use rows::{LentOrder, MAX_TASKS, Order, RowNumbers, positions_for};
use search::choose;

// The plan of a table's rows, in an order of their tasks.
fn plan_tasks(
    out: &mut [u8],
    board: u16,
    rows: &[RowNumbers],
    order: Order,
) -> Result<usize, Refusal>
    requires { Tasked (table_of rows.now) order }
    ensures { Written (if_in_time (length out.old) board
        (rows_for (ranked order) (table_of rows.now))) out.old out.new result }
{
    let mut positions = [0usize; MAX_TASKS];
    let positions = &mut positions[..order.count];
    positions_for(&order.tasks[..order.count], rows, positions);
    let lent = LentOrder { rows, positions };
    plan_order(out, board, OrderInLimits { lent })
}

// The planner, with room for the numbers of the text's lines.
fn plan_text(text: &[u8], out: &mut [u8], numbers: &mut [u64]) -> Result<usize, Refusal>
    requires { Room text.now numbers.old }
    ensures { PlanSays text.now out.old out.new result }
{
    let count = read_table(text, false, numbers)?;
    let table = Table { numbers, count };
    let rows = table.rows();
    let order = choose(rows).ok_or(Refusal::NoOrder)?;
    plan_tasks(out, table.board(), rows, order)
}

// The same with room for so many numbers.
fn plan_in_room<const NUMBERS: usize>(text: &[u8], out: &mut [u8]) -> Result<usize, Refusal>
    requires { RoomFor text.now NUMBERS }
    ensures { PlanSays text.now out.old out.new result }
{
    let mut numbers = [0u64; NUMBERS];
    plan_text(text, out, &mut numbers)
}

// The planner: the plan of a table's text, in the order that the rule chooses. A short text has few numbers, and room
// for the most isn't filled for it.
pub fn write_plan(text: &[u8], out: &mut [u8]) -> Result<usize, Refusal>
    ensures { PlanSays text.now out.old out.new result }
{
    if fits_in(text, SOME_NUMBERS) {
        return plan_in_room::<SOME_NUMBERS>(text, out);
    }
    if fits_in(text, MORE_NUMBERS) {
        return plan_in_room::<MORE_NUMBERS>(text, out);
    }
    plan_in_room::<MOST_NUMBERS>(text, out)
}

// The reviewer, with room for the numbers of the text's lines.
fn review_text(text: &[u8], out: &mut [u8], numbers: &mut [u64]) -> Result<usize, Refusal>
    requires { Room text.now numbers.old }
    ensures { ReviewSays text.now out.old out.new result }
{
    let count = read_table(text, true, numbers)?;
    let table = Table { numbers, count };
    plan_tasks(out, table.board(), table.rows(), table.order())
}

// The same with room for so many numbers. One function for both, with the call as a closure, would have a contract longer
// than the two of them.
fn review_in_room<const NUMBERS: usize>(text: &[u8], out: &mut [u8]) -> Result<usize, Refusal>
    requires { RoomFor text.now NUMBERS }
    ensures { ReviewSays text.now out.old out.new result }
{
    let mut numbers = [0u64; NUMBERS];
    review_text(text, out, &mut numbers)
}

// The reviewer: the figures of the order that a text's rank lines give, with room in more lengths: it reads, and hardly
// computes.
pub fn review_order(text: &[u8], out: &mut [u8]) -> Result<usize, Refusal>
    ensures { ReviewSays text.now out.old out.new result }
{
    if fits_in(text, FEW_NUMBERS) {
        return review_in_room::<FEW_NUMBERS>(text, out);
    }
    if fits_in(text, SOME_NUMBERS) {
        return review_in_room::<SOME_NUMBERS>(text, out);
    }
    if fits_in(text, MORE_NUMBERS) {
        return review_in_room::<MORE_NUMBERS>(text, out);
    }
    if fits_in(text, MANY_NUMBERS) {
        return review_in_room::<MANY_NUMBERS>(text, out);
    }
    review_in_room::<MOST_NUMBERS>(text, out)
}

// What the planner's program prints for the text it took: the plan, or the three lines of its refusal.
pub fn print_plan(text: &[u8], out: &mut [u8; ROOM]) -> usize
    ensures wrote { Wrote (planner_prints text.now) out.old out.new result }
    ensures prefix_len { IsPrefixLen result out.new }
{
    let planned = write_plan(text, out);
    printed(planned, out)
}

// What the reviewer's program prints for the text it took.
pub fn print_review(text: &[u8], out: &mut [u8; ROOM]) -> usize
    ensures wrote { Wrote (reviewer_prints text.now) out.old out.new result }
    ensures prefix_len { IsPrefixLen result out.new }
{
    let reviewed = review_order(text, out);
    printed(reviewed, out)
}
