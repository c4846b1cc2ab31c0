// An order of rows that are lent: where each stands among them.
ghost use Rattle.std.specs.Prelude.{◌≡◌, ◌≤◌, length, take, drop};
ghost use Rattle.rows.specs.inside.Numbers.{Below};

use super::lent::RowNumbers;

// The rows at some positions among rows, the highest rank first.
#[derive(Clone, Copy)]
pub struct LentOrder<'a> {
    pub rows: &'a [RowNumbers],
    pub positions: &'a [usize],
    pub ghost held: { Below (length rows.now) positions.now },
}

impl<'a> LentOrder<'a> {
    ghost use Rattle.rows.specs.inside.LentOrders.{rows_in_order};

    // How many rows it has.
    pub fn len(&self) -> usize
        ensures { result ≡ length (rows_in_order self.now) }
    {
        self.positions.len()
    }

    // The order of the first n of them.
    pub fn front(self, n: usize) -> LentOrder<'a>
        requires { n ≤ length (rows_in_order self) }
        ensures { rows_in_order result ≡ take n (rows_in_order self.entry) }
    {
        LentOrder {
            rows: self.rows,
            positions: &self.positions[..n],
        }
    }

    // The order of those behind the first n.
    pub fn behind(self, n: usize) -> LentOrder<'a>
        requires { n ≤ length (rows_in_order self) }
        ensures { rows_in_order result ≡ drop n (rows_in_order self.entry) }
    {
        LentOrder {
            rows: self.rows,
            positions: &self.positions[n..],
        }
    }
}
