// A plan: its entries, its text, and what a call returns. What they are and the laws of them stand in specs and proofs;
// the code that writes a plan stands in `plan_lines` and `plan_orders`.
#![tactic(auto)]

ghost use Rattle.std.specs.Prelude.{◌≡◌};
ghost use Rattle.plans.specs.Outcomes.{number, place};
ghost use Rattle.plans.specs.declared.Refusal.TheVariants.{Line};

use text::LineRefusal;

// A rank's entry in a plan. Best and worst are response times.
#[derive(Clone, Copy)]
pub struct Entry {
    pub task: u32,
    pub best: u32,
    pub worst: u32,
    pub jitter: u32,
    pub margin: i64,
}

// Why a call writes nothing: a line of its text is refused; an order's first late rank, counted from 1; no order of the
// tasks is stable; the buffer is shorter than the text; a crane's text has too many pieces.
#[derive(Clone, Copy, Debug, PartialEq, Eq)]
pub enum Refusal {
    Line(LineRefusal),
    Late { rank: u32 },
    NoOrder,
    NoRoom,
    ManyPieces,
}

impl Refusal {
    // The number under which it is listed.
    pub fn number(self) -> u8
        ensures { result ≡ number self }
    {
        match self {
            Refusal::Line(refused) => refused.fault.number(),
            Refusal::Late { .. } => 7,
            Refusal::NoOrder => 8,
            Refusal::NoRoom => 9,
            Refusal::ManyPieces => 10,
        }
    }

    // Its line or rank; 0 where it has neither, which is the place that the documents give such a refusal.
    pub fn place(self) -> u32
        ensures { result ≡ place self }
    {
        match self {
            Refusal::Line(refused) => refused.line,
            Refusal::Late { rank } => rank,
            Refusal::NoOrder | Refusal::NoRoom | Refusal::ManyPieces => 0,
        }
    }
}

// A refused line refuses its text.
impl From<LineRefusal> for Refusal {
    ghost from_gives = { λ refusal r. r ≡ Line refusal };

    fn from(refusal: LineRefusal) -> Refusal {
        Refusal::Line(refusal)
    }
}
