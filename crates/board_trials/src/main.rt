// Plans of generated tables on a board. The planner's text is compared with the brute force's first, so the lines that
// every finish is held against are those of the plan. Prints DIFFERS and the table at the first that is not kept.
#![tactic(auto)]

use trial_calls::{Differs, Trials};
use trials::{Dice, Finishes, Lengths, Question, Run, Table};

const TABLES: u32 = 2000;

const TICKS: u32 = 5000;

// Six runs of a plan: all first releases at 0 or by chance, jobs all worst, all best or by chance.
fn runs_of(ranked: &Table, dice: &mut Dice) -> Finishes {
    let mut shown = Finishes::default();
    for lengths in [Lengths::Worst, Lengths::Best, Lengths::Any] {
        let spread = dice.between(1, 200);
        let at_once = Run {
            ticks: TICKS,
            spread: 0,
            lengths,
        };
        shown += at_once.on_board(ranked, dice);
        shown += Run { spread, ..at_once }.on_board(ranked, dice);
    }
    shown
}

// What has been run.
#[derive(Clone, Copy, Default)]
struct Seen {
    plans: u64,
    shown: Finishes,
}

impl Trials for Seen {
    // With a table by chance, where it has a stable order.
    fn trial(&mut self, dice: &mut Dice) -> Result<(), Differs> {
        let question = Question::to_planner(trials::any_table(dice));
        let Some(ranked) = question.ranked() else {
            return Ok(());
        };
        let _ = trial_calls::tried(&question, trials::SPACE, 7)?;
        let runs = runs_of(&ranked, dice);
        if runs.broken > 0 {
            trials::print(format_args!("DIFFERS on the board\n{question}"));
            return Err(Differs);
        }
        trials::count_if(&mut self.plans, true);
        self.shown += runs;
        Ok(())
    }

    fn print(&self) {
        let shown = self.shown;
        trials::print_count(self.plans, "plans, each run six times for 5000 ticks");
        trials::print_count(shown.jobs, "jobs finished within their lines");
        trials::print_count(shown.at_worst, "exactly at the worst line");
        trials::print_count(shown.at_best, "exactly at the best line");
        trials::print_count(shown.unheld, "released too soon for the best line to count");
    }
}

fn main() {
    Seen::run(TABLES);
}
