// Curves of permitted jitter: whether their points keep the limits, and the margin of responses under one. A curve's
// points are lent as they follow one another, each as its two numbers.
#![tactic(auto)]

ghost use Rattle.std.specs.Prelude.{◌≡◌, true, ◌-◌, ◌*◌, ◌≤◌, ◌<◌, ◌^◌, length, MatchOption};
ghost use Rattle.std.proofs.Math.IntN.{sub_ℕ};
ghost use Rattle.curves.specs.Curves.{max_delay, max_allow, max_response, well_formed, point_from, points_of, points_from};
ghost use Rattle.curves.specs.Curves.{on_line, permitted, floor_of, thousandths, curve_margin};
ghost use Rattle.curves.specs.inside.Places.{Passed, Reached};

use basics::within;

// A point's numbers, and where each stands among them: an array and no struct, since a row's numbers are lent as they stand
// (docs/DECISIONS.md, "Rows are lent as arrays of their numbers").
pub type PointNumbers = [u64; 2];

pub const DELAY: usize = 0;

pub const ALLOW: usize = 1;

// The most points of a curve.
pub const MAX_POINTS: usize = 8;

// A curve's limits: how many points, and the ticks of a delay and of an allow.
pub const POINTS_MIN: u64 = 0;

pub const POINTS_MAX: u64 = MAX_POINTS as u64;

pub const DELAY_MIN: u64 = 0;

pub const DELAY_MAX: u64 = 1_000_000;

pub const ALLOW_MIN: u64 = 0;

pub const ALLOW_MAX: u64 = 1_000_000;

// The first n points of numbers that stand by turns: a row has the count of its points beside room for the most, and the
// points that are lent have it within.
pub fn points_from(numbers: &[u64], n: usize) -> &[PointNumbers]
    requires { 2 * n ≤ length numbers.now }
    ensures points { points_of result.now ≡ points_from n numbers.now }
    ensures count { length result.now ≡ n }
{
    let (points, _) = numbers[..2 * n].as_chunks::<2>();
    points
}

// Whether points keep the limits of a curve.
pub fn well_formed(points: &[PointNumbers]) -> bool
    ensures { result ≡ well_formed (points_of points.now) }
{
    if MAX_POINTS < points.len() {
        return false;
    }
    // the least delay and the largest allow that the next point may have
    let mut low = DELAY_MIN;
    let mut high = ALLOW_MAX;
    for point in points {
        let delay = point[DELAY];
        let allow = point[ALLOW];
        if !(within(low, DELAY_MAX, delay) & within(ALLOW_MIN, high, allow)) {
            return false;
        }
        low = delay + 1;
        high = allow;
    }
    true
}

// over / under.
#[derive(Clone, Copy)]
struct Fraction {
    over: u64,
    under: u64,
}

// The latest and the earliest response of a row, in ticks.
#[derive(Clone, Copy)]
pub struct Responses {
    pub latest: u64,
    pub earliest: u64,
    pub ghost in_limits: { latest ≤ max_response },
    pub ghost ordered: { earliest ≤ latest },
}

impl Responses {
    // How far apart they are.
    pub fn jitter(self) -> u64
        ensures { result ≡ self.latest - self.earliest }
    {
        self.latest - self.earliest
    }
}

// (a - b) / d rounded down. Signed `/` rounds towards zero, so both signs divide without a sign, and a quotient below 2^63
// gets one by `as`, which loses nothing.
fn floor_of(a: u64, b: u64, d: u64) -> i64
    requires { (1 ≤ d) × (a < 2 ^ 63) × (b < 2 ^ 63) }
    ensures { result ≡ floor_of (sub_ℕ a b) d }
{
    if b <= a {
        return ((a - b) / d) as i64;
    }
    -1 - ((b - a - 1) / d) as i64
}

// 1,000 × (f - jitter) rounded down.
fn thousandths(f: Fraction, jitter: u64) -> i64
    requires { (1 ≤ f.under) × (f.under ≤ max_delay) × (f.over ≤ max_allow * f.under) × (jitter ≤ max_response) }
    ensures { result ≡ thousandths f jitter }
{
    floor_of(1000 * f.over, 1000 * (jitter * f.under), f.under)
}

// The index of the first point whose delay the response is not past; none where it is past all.
fn place_of(points: &[PointNumbers], earliest: u64) -> Option<usize>
    ensures { MatchOption result (Passed (length points.now) points.now earliest) (Reached points.now earliest) }
{
    points.iter().position(|point| earliest <= point[DELAY])
}

// What the line from one point to the next permits.
fn on_line(left: &PointNumbers, right: &PointNumbers, earliest: u64) -> Fraction
    requires { let p = point_from left.now in let q = point_from right.now in
        (p.delay ≤ earliest) × (earliest ≤ q.delay) × (q.delay ≤ max_delay)
        × (p.allow ≤ max_allow) × (q.allow ≤ max_allow) }
    ensures { result ≡ on_line (point_from left.now) (point_from right.now) earliest }
{
    let from = left[DELAY];
    let to = right[DELAY];
    let over = left[ALLOW] * (to - earliest) + right[ALLOW] * (earliest - from);
    let under = to - from;
    Fraction { over, under }
}

// What a curve permits.
fn permitted(points: &[PointNumbers], earliest: u64) -> Fraction
    requires { (1 ≤ length points.now) × (well_formed (points_of points.now) ≡ true) }
    ensures { result ≡ permitted (points_of points.now) earliest }
{
    match place_of(points, earliest) {
        None => Fraction { over: 0, under: 1 },
        Some(0) => Fraction {
            over: points[0][ALLOW],
            under: 1,
        },
        Some(i) => on_line(&points[i - 1], &points[i], earliest),
    }
}

// The margin of responses under a curve.
pub fn curve_margin(points: &[PointNumbers], responses: Responses) -> i64
    requires { (1 ≤ length points.now) × (well_formed (points_of points.now) ≡ true) }
    ensures { result ≡ curve_margin (points_of points.now) responses.latest responses.earliest }
{
    let earliest = responses.earliest;
    let last = points[points.len() - 1][DELAY];
    if last < earliest {
        return floor_of(1000 * last, 1000 * earliest, 1);
    }
    let f = permitted(points, earliest);
    thousandths(f, responses.jitter())
}
