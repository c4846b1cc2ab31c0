// Lines with one key, one after another.
ghost use Rattle.std.specs.Prelude.{◌≡◌, false};
ghost use Rattle.basics.specs.Basics.{is_in};
ghost use Rattle.text.specs.Text.{line_feed};
ghost use Rattle.watches.specs.inside.Lines.{low_of, high_of, ReadsNumbers, Readable};

use text::{Cursor, LineRefusal, line_at};

// From which number to which. The default stands where no range is known yet.
#[derive(Clone, Copy, Default)]
pub struct Range {
    pub low: u64,
    pub high: u64,
}

// Lines with one key, each with the range of its number's owner.
#[derive(Clone, Copy)]
pub struct Lines<'a> {
    pub key: &'a [u8],
    pub ranges: &'a [Range],
    pub owners: &'a [usize],
}

// The numbers of the lines from a place on, as many as there is room for: the offset after them. The index m is also the
// line's own number, counted from the first. The `as` is proved to lose nothing.
pub fn read_numbers(from: Cursor, lines: &Lines, numbers: &mut [u64]) -> Result<usize, LineRefusal>
    requires key_value { is_in line_feed lines.now.key.now ≡ false }
    requires readable { Readable from.line lines.now.ranges.now lines.now.owners.now numbers.old }
    ensures { ReadsNumbers from.entry.text.now lines.now.key.now
        (low_of lines.now.ranges.now lines.now.owners.now) (high_of lines.now.ranges.now lines.now.owners.now)
        from.entry.offset from.entry.line numbers.new result }
{
    let mut at = from.offset;
    for (m, number) in numbers.iter_mut().enumerate() {
        let range = lines.ranges[lines.owners[m]];
        let here = Cursor {
            offset: at,
            line: from.line + m as u32,
            ..from
        };
        let line = line_at(here, lines.key, range.low, range.high)?;
        *number = line.value;
        at = line.next;
    }
    Ok(at)
}
