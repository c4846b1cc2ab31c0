// The brute force by itself: document 01's own figures, and what the generator makes.
#![tactic(auto)]

use trials::{Dice, Question, Row, Spread, Table};

const TABLES: u32 = 2400;

// Document 01's example with betas of one's own.
fn example(first: u32, second: u32, third: u32) -> Table {
    let a = Row {
        task: 11,
        period: 24,
        worst: 6,
        best: 6,
        alpha: 1000,
        beta: first,
    };
    let b = Row {
        task: 12,
        period: 18,
        worst: 2,
        best: 2,
        alpha: 1000,
        beta: second,
    };
    let c = Row {
        task: 13,
        period: 200,
        worst: 19,
        best: 17,
        alpha: 3000,
        beta: third,
    };
    Table::new(7, &[a, b, c])
}

// Its one task of 10, 10, 10.
fn alone(beta: u32) -> Table {
    let a = Row {
        task: 1,
        period: 10,
        worst: 10,
        best: 10,
        alpha: 1000,
        beta,
    };
    Table::new(7, &[a])
}

// Prints what the planner has to answer.
fn show(table: Table) {
    let mut out = [0; trials::SPACE];
    match Question::to_planner(table).answered(&mut out) {
        Ok(long) => {
            trials::print_count(0, "is answered");
            io::write_all(1, &out[..long]);
        }
        Err(refusal) => trials::print_count(u64::from(refusal.number), "is answered"),
    }
}

// How generated tables are spread.
fn generated() -> Spread {
    let mut dice = Dice::new();
    let mut spread = Spread::default();
    for _ in 0..TABLES {
        let table = trials::any_table(&mut dice);
        spread.count(&table, trials::first_stable(&table));
    }
    spread
}

fn main() {
    show(example(8000, 8000, 57000));
    show(example(8000, 8000, 55000));
    show(example(8000, 8000, 54999));
    show(example(7999, 8000, 57000));
    show(example(7999, 7999, 57000));
    show(alone(10000));
    show(alone(9999));
    let spread = generated();
    trials::print_count(u64::from(TABLES), "tables");
    trials::print_count(spread.ordered, "with a stable order");
    trials::print_count(spread.several, "with several");
    trials::print_count(spread.edge, "with a margin of 0 in the plan");
}
