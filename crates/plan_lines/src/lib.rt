// The lines of a plan and of a refusal, put into a lent buffer. They are put by hand, and no type has a `Display`: the
// contracts name each byte of a buffer that is lent, and nothing is allocated. each `as` is
// proved to lose nothing; `u64::from` was tried, and the proofs then carry an equation for each call.
#![tactic(auto)]

ghost use Rattle.std.specs.Prelude.{◌≤◌, ◌⊎◌, length};
ghost use Rattle.text.specs.Buffers.{Wrote};
ghost use Rattle.plans.specs.Plans.{rank_text, head_text, refusal_text};
ghost use Rattle.plans.specs.Outcomes.{number, place};
ghost use Rattle.plans.specs.inside.Prints.{refusal_room};

use plans::{Entry, Refusal};
use text::put_line;

// The lines of a rank.
pub fn put_rank(out: &mut [u8], rank: u64, e: Entry) -> usize
    requires { length (rank_text rank e) ≤ length out.old }
    ensures { Wrote (rank_text rank e) out.old out.new result }
{
    let mut at = put_line(out, b"rank=", rank);
    at += put_line(&mut out[at..], b"task=", e.task as u64);
    at += put_line(&mut out[at..], b"best=", e.best as u64);
    at += put_line(&mut out[at..], b"worst=", e.worst as u64);
    at += put_line(&mut out[at..], b"jitter=", e.jitter as u64);
    at += put_line(&mut out[at..], b"margin=", e.margin);
    at
}

// The lines before the ranks.
pub fn put_head(out: &mut [u8], board: u16, count: usize) -> usize
    requires { length (head_text board count) ≤ length out.old }
    ensures { Wrote (head_text board count) out.old out.new result }
{
    let mut at = put_line(out, b"plan=", 1u64);
    at += put_line(&mut out[at..], b"board=", board as u64);
    at += put_line(&mut out[at..], b"tasks=", count as u64);
    at
}

// The three lines of a refusal, with room for them or for those of every refusal.
pub fn put_refusal(out: &mut [u8], refusal: Refusal) -> usize
    requires { (length (refusal_text (number refusal) (place refusal)) ≤ length out.old) ⊎ (refusal_room ≤ length out.old) }
    ensures { Wrote (refusal_text (number refusal) (place refusal)) out.old out.new result }
{
    let number = refusal.number();
    let place = refusal.place();
    let mut at = put_line(out, b"plan=", 0u64);
    at += put_line(&mut out[at..], b"refusal=", number as u64);
    at += put_line(&mut out[at..], b"line=", place as u64);
    at
}
