// Counting and printing.
use crate::permutations::Found;
use crate::questions::Answer;
use crate::tables::Table;
use crate::texts::print;

const NUMBERS: usize = 10;

// Counts one more where the test holds.
pub fn count_if(count: &mut u64, holds: bool) {
    *count = count.wrapping_add(u64::from(holds));
}

// How often each answer was given.
#[derive(Clone, Copy, Default)]
pub struct Tally {
    pub plans: u64,
    // By their numbers.
    pub refusals: [u64; NUMBERS],
}

impl Tally {
    pub fn count(&mut self, answer: Answer) {
        match answer {
            Ok(_) => count_if(&mut self.plans, true),
            Err(refusal) => {
                if let Some(count) = self.refusals.get_mut(usize::from(refusal.number)) {
                    count_if(count, true);
                }
            }
        }
    }
}

// How tables are spread.
#[derive(Clone, Copy, Default)]
pub struct Spread {
    // With a stable order, with several, and with none.
    pub ordered: u64,
    pub several: u64,
    pub none: u64,
    // With a margin of 0 in the plan.
    pub edge: u64,
}

impl Spread {
    // With what trying every order of a table has found.
    pub fn count(&mut self, table: &Table, found: Option<Found>) {
        match found {
            Some(found) => {
                let judged = table.arranged(&found.first).judged();
                count_if(&mut self.ordered, true);
                count_if(&mut self.several, found.orders > 1);
                count_if(&mut self.edge, judged.is_ok_and(|m| m.edge));
            }
            None => count_if(&mut self.none, true),
        }
    }
}

// Prints a line with a count and its name.
pub fn print_count(count: u64, name: &str) {
    print(format_args!("{count} {name}\n"));
}
