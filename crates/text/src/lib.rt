// Text as bytes: lines read, and numbers and lines written. Each `as` is proved to lose nothing; `u64::from` adds an
// equation for each call to the proofs.
#![tactic(auto)]

// writers.rt: numbers and lines put into a lent buffer.
mod writers;

ghost use Rattle.std.specs.Prelude.{◌≡◌, false, ◌&&◌, ◌<◌, length, ◌==◌, nat_lt, slice_index, Some};
ghost use Rattle.basics.specs.Basics.{is_in};
ghost use Rattle.text.specs.Text.{line_feed, digit_zero};
ghost use Rattle.text.specs.Lines.{begins, ranged};
ghost use Rattle.text.specs.Lines.{line_at, end_at, fault_number, refused, told, told_end};
ghost use Rattle.text.specs.inside.Fronts.{Fronts, unread};

use basics::within;
pub use writers::{Written, put_bytes, put_line};

// A line's number, and the offset after the line.
#[derive(Clone, Copy, PartialEq, Eq)]
pub struct Number {
    pub value: u64,
    pub next: usize,
}

// What is wrong with a line. The first three any line may meet: there is no such line, no number in it, or none in its
// range. The others a table's line may meet whose number is in its range: it is past another, a task's number was used
// before, a rank names no task of the table or one that has been named, a point does not follow the one before it.
#[derive(Clone, Copy, Debug, PartialEq, Eq)]
pub enum Fault {
    Missing,
    Malformed,
    OutOfRange,
    Exceeding,
    Repeated,
    Impossible,
    Disorderly,
}

impl Fault {
    // The number of the refusal under which it is listed.
    pub fn number(self) -> u8
        ensures { result ≡ fault_number self }
    {
        match self {
            Fault::Missing => 1,
            Fault::Malformed => 2,
            Fault::OutOfRange => 3,
            Fault::Exceeding => 4,
            Fault::Repeated => 5,
            Fault::Impossible => 6,
            Fault::Disorderly => 11,
        }
    }
}

// Why a line is refused, and the line's own number.
#[derive(Clone, Copy, Debug, PartialEq, Eq)]
pub struct LineRefusal {
    pub fault: Fault,
    pub line: u32,
}

// A place in a text where a line begins, and the line's number.
#[derive(Clone, Copy)]
pub struct Cursor<'a> {
    pub text: &'a [u8],
    pub offset: usize,
    pub line: u32,
}

// The most digits of a number.
const MAX_DIGITS: usize = 12;

// Whether a text begins with a key.
#[tactic(auto, using(crate::proofs::Scans::begins_is))]
pub fn starts_with(s: &[u8], key: &[u8]) -> bool
    ensures { result ≡ begins key.now s.now }
{
    s.starts_with(key)
}

// The digits at the front of a text: how many they are, and the number that they write, where they are no more than a
// number has.
#[derive(Clone, Copy)]
struct Front {
    value: u64,
    size: usize,
}

// The digits at the front of a text. Modulo 2^64, so that neither too many digits, whose number nobody wants, nor a byte
// below the digits needs a test of its own. `is_ascii_digit` was tried, and lines took a quarter longer to read.
fn digits_at(s: &[u8]) -> Front
    ensures { Fronts s.now result }
{
    let mut value: u64 = 0;
    for (i, b) in s.iter().enumerate() {
        let digit = (*b as u64).wrapping_sub(b'0' as u64);
        if 9 < digit {
            return Front { value, size: i };
        }
        value = value.wrapping_mul(10).wrapping_add(digit);
    }
    Front {
        value,
        size: s.len(),
    }
}

// Whether a line feed stands at an index.
fn feed_at(s: &[u8], at: usize) -> bool
    ensures { result ≡ nat_lt at (length s.now) && (slice_index s.now at == line_feed) }
{
    s.get(at).is_some_and(|b| *b == b'\n')
}

// Whether a line is a lone 0.
fn is_zero(s: &[u8]) -> bool
    requires { 0 < length s.now }
    ensures { result ≡ (slice_index s.now 0 == digit_zero) && (nat_lt 1 (length s.now) && (slice_index s.now 1 == line_feed)) }
{
    s[0] == b'0' && feed_at(s, 1)
}

// Why a line is refused that has no number and feed behind it: it is no number, or it has no end.
fn goes_on(s: &[u8], line: u32) -> LineRefusal
    ensures { refused result ≡ unread s.now line }
{
    if s.contains(&b'\n') {
        return LineRefusal {
            fault: Fault::Malformed,
            line,
        };
    }
    LineRefusal {
        fault: Fault::Missing,
        line,
    }
}

// A line's number, if it is in its range.
fn ranged(number: Number, low: u64, high: u64, line: u32) -> Result<Number, LineRefusal>
    ensures { told result ≡ ranged (Some number.value) low high line number.next }
{
    if !within(low, high, number.value) {
        return Err(LineRefusal {
            fault: Fault::OutOfRange,
            line,
        });
    }
    Ok(number)
}

// The line that begins at a place: a key, a number in its range, and a line feed. What is no longer than the key does
// not hold it and a feed. As neither key nor digits have a feed, they are passed first, and it is sought only behind them.
// A number begins with a digit above 0, but for 0 itself, which many lines have: so the first byte says whether the line
// is a lone 0 or has digits to be passed, of which at most twelve are a number.
// Inlined, so that a line's key and range are constants where it is read.
#[inline(always)]
pub fn line_at(at: Cursor, key: &[u8], low: u64, high: u64) -> Result<Number, LineRefusal>
    requires { is_in line_feed key.now ≡ false }
    ensures { told result ≡ line_at key.now low high at.entry.text.now at.entry.offset at.entry.line }
{
    let line = at.line;
    let missing = LineRefusal {
        fault: Fault::Missing,
        line,
    };
    if at.text.len() < at.offset {
        return Err(missing);
    }
    let rest = &at.text[at.offset..];
    if rest.len() <= key.len() {
        return Err(missing);
    }
    if !starts_with(rest, key) {
        return Err(missing);
    }
    let tail = &rest[key.len()..];
    if tail[0] <= b'0' {
        if !is_zero(tail) {
            return Err(goes_on(tail, line));
        }
        let next = at.offset + key.len() + 2;
        return ranged(Number { value: 0, next }, low, high, line);
    }
    let front = digits_at(tail);
    if !feed_at(tail, front.size) {
        return Err(goes_on(tail, line));
    }
    if MAX_DIGITS < front.size {
        return Err(LineRefusal {
            fault: Fault::Malformed,
            line,
        });
    }
    let next = at.offset + key.len() + front.size + 1;
    let value = front.value;
    ranged(Number { value, next }, low, high, line)
}

// The end of the text, where nothing is expected.
pub fn end_at(at: Cursor) -> Result<(), LineRefusal>
    ensures { told_end result ≡ end_at at.entry.text.now at.entry.offset at.entry.line }
{
    if at.offset < at.text.len() {
        return Err(LineRefusal {
            fault: Fault::Missing,
            line: at.line,
        });
    }
    Ok(())
}
