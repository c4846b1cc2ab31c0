// The planner's and the reviewer's calls, held against what the brute force has to answer.
#![tactic(auto)]

use trials::{Answer, Dice, Question, Refusal, SPACE};

#[derive(Clone, Copy)]
pub enum Program {
    Planner,
    Reviewer,
}

impl Program {
    // Its call, and its answer in the brute force's words.
    pub fn call(self, text: &[u8], out: &mut [u8]) -> Answer {
        let returned = match self {
            Program::Planner => ranks::write_plan(text, out),
            Program::Reviewer => ranks::review_order(text, out),
        };
        returned.map_err(|refusal| Refusal {
            number: refusal.number(),
            place: refusal.place(),
        })
    }
}

impl From<&Question> for Program {
    // The program that is asked.
    fn from(question: &Question) -> Self {
        match question {
            Question::Plan(..) => Program::Planner,
            Question::Review(..) => Program::Reviewer,
        }
    }
}

// What a call has done otherwise than the brute force.
#[derive(Clone, Copy)]
pub struct Differs;

// The call on a question, in a buffer of `room` bytes that are all `fill`: the answer, if it is the brute force's, with
// every byte of the buffer. Prints the text where it differs.
pub fn tried(question: &Question, room: usize, fill: u8) -> Result<Answer, Differs> {
    let text = question.text();
    let mut wanted = [fill; SPACE];
    let mut got = [fill; SPACE];
    let some = room.min(SPACE);
    let expected = question.answered(&mut wanted[..some]);
    let answer = Program::from(question).call(text.as_bytes(), &mut got[..some]);
    if answer == expected && got == wanted {
        return Ok(answer);
    }
    trials::print(format_args!("DIFFERS\n{question}"));
    Err(Differs)
}

// What trials of tables by chance have shown.
pub trait Trials: Default + Drop {
    // With one more table.
    fn trial(&mut self, dice: &mut Dice) -> Result<(), Differs>;

    // Of so many tables, if no call differs.
    fn of(tables: u32) -> Result<Self, Differs> {
        let mut dice = Dice::new();
        let mut seen = Self::default();
        for _ in 0..tables {
            seen.trial(&mut dice)?;
        }
        Ok(seen)
    }

    // Prints what has been shown.
    fn print(&self);

    // Prints what so many tables have shown, if no call differs.
    fn run(tables: u32) {
        if let Ok(seen) = Self::of(tables) {
            seen.print();
        }
    }
}
