// What the planner and the reviewer are held against: generated tables, the figures by plain scanning, every order
// tried, the texts, and a board tick by tick. Written from document 01 alone, and apart from the crates that it tests.
#![tactic(auto)]

mod counts;
mod dice;
mod figures;
mod generator;
mod permutations;
mod questions;
mod runs;
mod tables;
mod texts;

// No program names Found, Late and Margins, but public functions answer them.
pub use counts::{Spread, Tally, count_if, print_count};
pub use dice::Dice;
pub use generator::any_table;
pub use permutations::{Found, Order, first_stable};
pub use questions::{Answer, Question, Refusal};
pub use runs::{Finishes, Lengths, Run};
pub use tables::{Late, Margins, Row, Table};
pub use texts::{SPACE, Text, print};
