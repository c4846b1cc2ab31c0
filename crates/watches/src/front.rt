// The table at the front of a text to watch: read as the reviewer's, but that no task holds the processor.
ghost use Rattle.std.specs.Prelude.{◌≡◌, false};
ghost use Rattle.readers.specs.inside.Numbers.{Room};
ghost use Rattle.readers.specs.inside.Stands.{is_end};
ghost use Rattle.watches.specs.inside.Fronts.{at_hold, OnFront, TakesUnheld, ReadsFront};

use readers::{Part, Progress, Stand, next_line};
use rows::HOLD;
use text::{LineRefusal, line_at};

// The one hold that is taken.
const NO_HOLD: u64 = 0;

// Whether the next line is a hold.
fn at_hold(stand: Stand) -> bool
    ensures { result ≡ at_hold stand.part stand.position }
{
    stand.part == Part::Row && stand.position == HOLD
}

// The reading past the line that is expected: as the table's, but that a hold is to be 0.
fn take_unheld(text: &[u8], before: Progress, numbers: &mut [u64]) -> Result<Progress, LineRefusal>
    requires on_front { OnFront text.now (before, numbers.old) }
    requires before_end { is_end before.stand.part ≡ false }
    ensures { TakesUnheld before text.now numbers.old result numbers.new }
{
    if at_hold(before.stand) {
        line_at(before.cursor(text), b"hold=", NO_HOLD, NO_HOLD)?;
    }
    next_line(text, before, numbers)
}

// Reads the table line by line, each number behind those before it, and stops behind its last line. It is the loop of
// `read_table` with another step and without the text's end; with the step as a closure the contract of that loop would
// have to name its state.
pub fn read_front(text: &[u8], numbers: &mut [u64]) -> Result<Progress, LineRefusal>
    requires { Room text.now numbers.old }
    ensures { ReadsFront text.now result numbers.new }
{
    let mut p = Progress::start(true);
    while p.stand.part != Part::End {
        p = take_unheld(text, p, numbers)?;
    }
    Ok(p)
}
