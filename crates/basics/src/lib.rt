// What every crate says of tests, numbers, ranges and lists of numbers. Each function here ties a method of the library to
// the definition that proofs cite.
#![tactic(auto)]

ghost use Rattle.std.specs.Prelude.{◌≡◌};
ghost use Rattle.basics.specs.Basics.{larger, within};

// The larger of two numbers.
pub fn larger(a: u64, b: u64) -> u64
    ensures { result ≡ larger a b }
{
    a.max(b)
}

// Whether low ≤ value ≤ high.
pub fn within(low: u64, high: u64, value: u64) -> bool
    ensures { result ≡ within low high value }
{
    (low..=high).contains(&value)
}
