// Text out: each writer puts its text at the front of a lent buffer and says how long the text is.
ghost use Rattle.std.specs.Prelude.{◌≡◌, ℕ, ◌+◌, ◌<◌, ◌≤◌, List, length};
ghost use Rattle.text.specs.Text.{digit_zero, decimal, signed, key_line};
ghost use Rattle.text.specs.Buffers.{Wrote};

pub fn put_bytes(out: &mut [u8], text: &[u8]) -> usize
    requires { length text.now ≤ length out.old }
    ensures { Wrote text.now out.old out.new result }
{
    let long = text.len();
    out[..long].copy_from_slice(text);
    long
}

// How many digits a number has.
fn places(n: u64) -> usize
    ensures { result ≡ length (decimal n) }
{
    n.max(1).ilog10() as usize + 1
}

// The byte of a digit.
fn digit(d: u64) -> u8
    requires { d < 10 }
    ensures { result ≡ digit_zero + d }
{
    b'0' + d as u8
}

// A number that is written as a text: digits, and a sign before them below 0.
pub trait Written: Copy {
    ghost spelled: { Self → List ℕ };

    // Puts the number's text.
    fn put(self, out: &mut [u8]) -> usize
        requires { length (spelled self) ≤ length out.old }
        ensures { Wrote (spelled self) out.old out.new result };
}

impl Written for u64 {
    ghost spelled = { decimal };

    // The digits are put from the last to the first. By the place's index, which the proof counts by:
    // `iter_mut().rev()` was tried and is no plainer, since its proof has to count what is left of the iterator.
    fn put(self, out: &mut [u8]) -> usize {
        let long = places(self);
        let mut rest = self;
        for i in (1..long).rev() {
            out[i] = digit(rest % 10);
            rest = rest / 10;
        }
        out[0] = digit(rest);
        long
    }
}

impl Written for i64 {
    ghost spelled = { signed };

    fn put(self, out: &mut [u8]) -> usize {
        let size = self.unsigned_abs();
        if 0 <= self {
            return size.put(out);
        }
        let mut at = put_bytes(out, b"-");
        at += size.put(&mut out[at..]);
        at
    }
}

pub fn put_line<N: Written>(out: &mut [u8], key: &[u8], n: N) -> usize
    requires { length (key_line key.now (N.spelled n)) ≤ length out.old }
    ensures { Wrote (key_line key.now (N.spelled n)) out.old out.new result }
{
    let mut at = put_bytes(out, key);
    at += n.put(&mut out[at..]);
    at += put_bytes(&mut out[at..], b"\n");
    at
}
