// The figures of document 01 by plain scanning.
ghost use Rattle.std.specs.Prelude.{◌≤◌, length, IfSome};
ghost use Rattle.trials.specs.declared.tables.TheConstants.{ROWS};

use crate::tables::Row;

#[derive(Clone, Copy, Default)]
pub struct Figures {
    pub worst: u16,
    pub best: u16,
    pub jitter: u16,
    // 1,000 × best + alpha × jitter: the beta at which the margin is 0.
    pub line: u64,
    // Beta less the line.
    pub margin: i64,
}

impl Row {
    // Its jobs that begin in a window. No period is 0: the `max` spares every caller a proof of that.
    fn jobs(&self, window: u16) -> u16 {
        window.div_ceil(self.period.max(1))
    }

    // The most ticks that it takes from a window of a rank below: by its worst.
    fn most(&self, window: u16) -> u32 {
        u32::from(self.jobs(window)) * u32::from(self.worst)
    }

    // The least: by its best with one job less.
    fn least(&self, window: u16) -> u32 {
        u32::from(self.jobs(window).saturating_sub(1)) * u32::from(self.best)
    }
}

// A row with the rows above it.
#[derive(Clone, Copy)]
pub struct Rank<'a> {
    pub row: Row,
    pub above: &'a [Row],
    ghost few: { length above.now ≤ ROWS },
}

impl<'a> Rank<'a> {
    // A row under those above it.
    pub fn of(row: Row, above: &'a [Row]) -> Self
        requires { length above.now ≤ ROWS }
    {
        Rank { row, above }
    }

    // Whether ticks of its own and those that each row above takes fill a window exactly.
    fn fills<F: Fn(&Row, u16) -> u32>(&self, window: u16, own: u16, taken: F) -> bool
        requires { F.IsAlwaysCallable taken }
    {
        let above: u64 = self.above.iter().map(|r| u64::from(taken(r, window))).sum();
        u64::from(window) == above.saturating_add(u64::from(own))
    }

    // The smallest window up to the period that the row and those above it fill.
    fn latest(&self) -> Option<u16> {
        (1..=self.row.period).find(|w| self.fills(*w, self.row.worst, Row::most))
    }

    // The largest from a number downwards, by their best.
    fn earliest(&self, from: u16) -> Option<u16>
        ensures { IfSome result (λ e. e ≤ from) }
    {
        (1..=from)
            .rev()
            .find(|e| self.fills(*e, self.row.best, Row::least))
    }

    // The figures, if the row is in time.
    pub fn figures(&self) -> Option<Figures> {
        let worst = self.latest()?;
        let best = self.earliest(worst).unwrap_or(0);
        let jitter = worst - best;
        let line = 1000 * u64::from(best) + u64::from(self.row.alpha) * u64::from(jitter);
        Some(Figures {
            worst,
            best,
            jitter,
            line,
            margin: i64::from(self.row.beta) - line as i64,
        })
    }
}
