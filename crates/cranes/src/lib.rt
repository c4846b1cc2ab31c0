// The crane's calls: a text of several boards, each piece of it planned as if it had come alone.
#![tactic(auto)]

ghost use Rattle.std.specs.Prelude.{◌≡◌, suc, ◌+◌, ◌≤◌, ◌<◌, length, get_or, drop, replicate};
ghost use Rattle.io.specs.Counts.{IsPrefixLen};
ghost use Rattle.text.specs.Buffers.{Wrote};
ghost use Rattle.crane_demands.specs.Pieces.{cut_after, board_key};
ghost use Rattle.crane_demands.specs.Calls.{crane_text, crane_room, crane_prints};
ghost use Rattle.crane_demands.specs.Demands.{CraneSays};
ghost use Rattle.cranes.specs.inside.Ends.{first_long, AreEnds, Cuts};

use plan_orders::{printed, put_whole};
use plans::Refusal;
use ranks::{ROOM, print_plan};
use text::{put_bytes, starts_with};

// The most pieces of a crane.
const MAX_PIECES: usize = 32;

// Room for every crane's output.
pub const CRANE_ROOM: usize = MAX_PIECES * ROOM;

// A buffer with that room (`plan_orders::buffer`).
pub fn buffer() -> [u8; CRANE_ROOM]
    ensures { result ≡ replicate crane_room 0 }
{
    [0; CRANE_ROOM]
}

// Whether the text is cut after the byte at i: a line begins there, with the key.
fn cut_after(text: &[u8], i: usize) -> bool
    requires { i < length text.now }
    ensures { result ≡ cut_after board_key (get_or text.now i 0) (drop (suc i) text.now) }
{
    text[i] == b'\n' && starts_with(&text[i + 1..], b"board=")
}

// Where the piece that begins at an offset ends, counted from the text's beginning, as the next piece begins there.
fn piece_end(text: &[u8], from: usize) -> usize
    requires { from ≤ length text.now }
    ensures { result ≡ from + first_long (drop from text.now) }
{
    (from..text.len())
        .find(|i| cut_after(text, *i))
        .map_or(text.len(), |i| i + 1)
}

// Where each piece ends, and how many there are, where they are no more than the most: in one pass over the text, which
// stops there. The ends stand in an array of the most, with their count: no heap is used.
fn cut(text: &[u8], ends: &mut [usize; MAX_PIECES]) -> Option<usize>
    ensures { Cuts text.now ends.new result }
{
    let mut at = 0;
    for (i, end) in ends.iter_mut().enumerate() {
        at = piece_end(text, at);
        *end = at;
        if text.len() <= at {
            return Some(i + 1);
        }
    }
    None
}

// The answers of all pieces, one after another.
fn put_answers(out: &mut [u8], text: &[u8], ends: &[usize]) -> usize
    requires ends_given { AreEnds text.now ends.now }
    requires room_in_bounds { crane_room ≤ length out.old }
    ensures { Wrote (crane_text text.now) out.old out.new result }
{
    let mut plan = ranks::buffer();
    let mut at = 0;
    let mut from = 0;
    for to in ends {
        let long = print_plan(&text[from..*to], &mut plan);
        at += put_bytes(&mut out[at..], &plan[..long]);
        from = *to;
    }
    at
}

// The crane's call: the plans and refusals of a text's pieces, in sequence. They are written whole into a buffer of the
// call's own, so that a refusal leaves `out` as it was.
pub fn write_crane(text: &[u8], out: &mut [u8]) -> Result<usize, Refusal>
    ensures { CraneSays text.now out.old out.new result }
{
    let mut ends = [0usize; MAX_PIECES];
    let Some(count) = cut(text, &mut ends) else {
        return Err(Refusal::ManyPieces);
    };
    let mut answers = buffer();
    let long = put_answers(&mut answers, text, &ends[..count]);
    put_whole(out, &answers[..long])
}

// What the crane's program prints for the text it took: the answers, or the three lines of a refusal.
pub fn print_crane(text: &[u8], out: &mut [u8; CRANE_ROOM]) -> usize
    ensures wrote { Wrote (crane_prints text.now) out.old out.new result }
    ensures prefix_len { IsPrefixLen result out.new }
{
    let crane = write_crane(text, out);
    printed(crane, out)
}
