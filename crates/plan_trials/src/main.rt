// The planner and the reviewer on generated tables: every answer is compared with the brute force's, with every byte of
// its buffer. Prints DIFFERS and the text at the first that is another, and stops. The one
// `as` is proved to lose nothing.
#![tactic(auto)]

use trial_calls::{Differs, Trials, tried};
use trials::{Dice, Order, Question, SPACE, Spread, Tally};

const TABLES: u32 = 5000;

// What has been compared.
#[derive(Clone, Copy, Default)]
struct Seen {
    spread: Spread,
    negative: u64,
    planner: Tally,
    reviewer: Tally,
}

// A buffer's length: enough, the plan's own, one byte less, or any.
fn any_room(question: &Question, dice: &mut Dice) -> usize {
    let long = question.answered(&mut [0; SPACE]).unwrap_or(0);
    match dice.between(0, 3) {
        0 => long,
        1 => long.saturating_sub(1),
        2 => usize::from(dice.between(0, 600)),
        _ => SPACE,
    }
}

impl Trials for Seen {
    // With a table by chance: the planner with room enough and in a buffer by chance, and the reviewer.
    fn trial(&mut self, dice: &mut Dice) -> Result<(), Differs> {
        let table = trials::any_table(dice);
        let fill = dice.between(0, 255) as u8;
        let order = Order::at(table.rows().len(), u64::from(dice.between(0, 719)));
        let found = trials::first_stable(&table);
        let judged = table.arranged(&order).judged();
        self.spread.count(&table, found);
        trials::count_if(&mut self.negative, judged.is_ok_and(|m| !m.stable));

        let plan = Question::Plan(table, found);
        let review = Question::Review(table, order);
        self.planner.count(tried(&plan, SPACE, fill)?);
        self.planner
            .count(tried(&plan, any_room(&plan, dice), fill)?);
        self.reviewer
            .count(tried(&review, any_room(&review, dice), fill)?);
        Ok(())
    }

    fn print(&self) {
        trials::print_count(u64::from(TABLES), "tables compared");
        trials::print_count(self.spread.ordered, "with a stable order");
        trials::print_count(self.spread.several, "with several");
        trials::print_count(self.spread.none, "with none");
        trials::print_count(self.spread.edge, "with a margin of 0 in the plan");
        trials::print_count(self.planner.plans, "plans by the planner");
        trials::print_count(self.planner.refusals[8], "refusals 8");
        trials::print_count(self.planner.refusals[9], "refusals 9");
        trials::print_count(self.reviewer.plans, "plans by the reviewer");
        trials::print_count(self.reviewer.refusals[7], "refusals 7");
        trials::print_count(self.reviewer.refusals[9], "refusals 9");
        trials::print_count(self.negative, "orders in time with a margin below 0");
    }
}

fn main() {
    Seen::run(TABLES);
}
