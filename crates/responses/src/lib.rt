// A row's figures: what they are and the laws of them stand in specs and proofs, the code that finds them in
// `analysis`.
#![tactic(auto)]

// A task by what counts of it in a window: its period, and the ticks that each of its jobs takes. The default stands where
// no task is put yet, and takes nothing.
#[derive(Clone, Copy, Debug, Default, PartialEq, Eq)]
pub struct Load {
    pub period: u64,
    pub cost: u64,
}

// The figures of a row that is in time: times in ticks, the margin in thousandths of a tick. It is stable where the margin
// is not below 0; `figures::row_figures` promises that as a field of its own.
#[derive(Clone, Copy, Debug, PartialEq, Eq)]
pub struct Figures {
    pub worst: u32,
    pub best: u32,
    pub jitter: u32,
    pub margin: i64,
    pub stable: bool,
}

// Why a row has no figures: the rows are not in the limits of a table, or it is late, of which nothing else is said.
#[derive(Clone, Copy, Debug, PartialEq, Eq)]
pub enum NoFigures {
    OutOfLimits,
    Late,
}
