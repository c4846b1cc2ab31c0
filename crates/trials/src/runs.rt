// A board tick by tick, as document 01 has it. Every finish is held against the response lines.
ghost use Rattle.std.specs.Prelude.{◌≤◌, length};

use crate::counts::count_if;
use crate::dice::Dice;
use crate::figures::{Figures, Rank};
use crate::tables::{ROWS, Row, Table};
use std::ops::AddAssign;

// What a run has shown.
#[derive(Clone, Copy, Default)]
pub struct Finishes {
    pub jobs: u64,
    pub at_worst: u64,
    pub at_best: u64,
    // Finishes that were not held against the best line: too soon after a first release above.
    pub unheld: u64,
    pub broken: u64,
}

impl AddAssign for Finishes {
    fn add_assign(&mut self, other: Finishes) {
        self.jobs = self.jobs.wrapping_add(other.jobs);
        self.at_worst = self.at_worst.wrapping_add(other.at_worst);
        self.at_best = self.at_best.wrapping_add(other.at_best);
        self.unheld = self.unheld.wrapping_add(other.unheld);
        self.broken = self.broken.wrapping_add(other.broken);
    }
}

// How long jobs are: all their worst, all their best, or any number between.
#[derive(Clone, Copy)]
pub enum Lengths {
    Worst,
    Best,
    Any,
}

impl Lengths {
    // A job's ticks.
    fn of(self, row: &Row, dice: &mut Dice) -> u16 {
        match self {
            Lengths::Worst => row.worst,
            Lengths::Any if row.best < row.worst => dice.between(row.best, row.worst),
            Lengths::Best | Lengths::Any => row.best,
        }
    }
}

#[derive(Clone, Copy)]
struct Job {
    release: u64,
    // The ticks that it still needs.
    left: u16,
}

// A rank: its row, its lines in the plan, and its open job. One job is enough: a job that is open a period after its
// release is past its worst line, and the run has ended by then.
#[derive(Clone, Copy, Default)]
struct Seat {
    row: Row,
    figures: Figures,
    // Jobs released from here on are held against the best line.
    held_from: u64,
    next: u64,
    job: Option<Job>,
}

impl Seat {
    // The job that is released at tick t, if one is.
    fn release(&mut self, t: u64, lengths: Lengths, dice: &mut Dice) {
        if self.next == t {
            self.next = t.wrapping_add(u64::from(self.row.period));
            self.job = Some(Job {
                release: t,
                left: lengths.of(&self.row, dice),
            });
        }
    }

    // A tick of its job, if one is open, and what the job's finish at tick t shows, if this was its last.
    fn serve(&mut self, t: u64) -> Finishes {
        let Some(job) = self.job else {
            return Finishes::default();
        };
        if job.left > 1 {
            let left = job.left - 1;
            self.job = Some(Job { left, ..job });
            return Finishes::default();
        }
        self.job = None;
        self.finish(t.wrapping_sub(job.release), self.held_from <= job.release)
    }

    // What a finish shows, by its response and whether it is held against the best line.
    fn finish(&self, response: u64, held: bool) -> Finishes {
        let worst = u64::from(self.figures.worst);
        let best = u64::from(self.figures.best);
        let broken = response > worst || held && response < best;
        Finishes {
            jobs: 1,
            at_worst: u64::from(response == worst),
            at_best: u64::from(held && response == best),
            unheld: u64::from(!held),
            broken: u64::from(broken),
        }
    }

    // Whether its job is open at a tick by which the worst line wants it finished.
    fn overdue(&self, t: u64) -> bool {
        let worst = u64::from(self.figures.worst);
        self.job
            .is_some_and(|job| t.wrapping_sub(job.release) >= worst)
    }
}

// The seats of rows before tick 0, with first releases from 0 to `spread`.
fn seated(rows: &[Row], spread: u16, dice: &mut Dice) -> [Seat; ROWS]
    requires { length rows.now ≤ ROWS }
{
    let mut seats = [Seat::default(); ROWS];
    // The last of the first releases above.
    let mut last = None;
    for (k, row) in rows.iter().enumerate() {
        let first = dice.between(0, spread);
        let held_from = last.map_or(0, |last| u64::from(last) + u64::from(row.period));
        seats[k] = Seat {
            row: *row,
            figures: Rank::of(*row, &rows[..k]).figures().unwrap_or_default(),
            held_from,
            next: u64::from(first),
            job: None,
        };
        last = last.max(Some(first));
    }
    seats
}

// How long a run is, how far apart its first releases may be, and how long its jobs are.
#[derive(Clone, Copy)]
pub struct Run {
    pub ticks: u32,
    pub spread: u16,
    pub lengths: Lengths,
}

impl Run {
    // The rows of a plan, highest rank first, run on a board. It ends at the first job that is past its worst line.
    pub fn on_board(self, ranked: &Table, dice: &mut Dice) -> Finishes {
        let rows = ranked.rows();
        let mut seats = seated(rows, self.spread, dice);
        let seats = &mut seats[..rows.len()];
        let mut shown = Finishes::default();
        for t in 0..self.ticks {
            let t = u64::from(t);
            for seat in seats.iter_mut() {
                seat.release(t, self.lengths, dice);
            }
            // The open job of highest rank.
            if let Some(seat) = seats.iter_mut().find(|seat| seat.job.is_some()) {
                shown += seat.serve(t + 1);
            }
            if seats.iter().any(|seat| seat.overdue(t + 1)) {
                count_if(&mut shown.broken, true);
                break;
            }
        }
        shown
    }
}
