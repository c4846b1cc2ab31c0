// Every order of a table's rows, one by one: no sets, and none left out.
use crate::tables::{ROWS, Row, Table};

// The rows of a table by their positions in it, highest rank first.
#[derive(Clone, Copy)]
pub struct Order {
    rows: [usize; ROWS],
}

impl Order {
    // Of the orders of n rows the one with this code: each digit picks a rank's row among those left.
    pub fn at(n: usize, code: u64) -> Self {
        let mut rows: [usize; ROWS] = std::array::from_fn(|i| i);
        let n = n.min(rows.len());
        let mut rest = code;
        for k in 0..n {
            let left = (n - k) as u64;
            rows.swap(k, k + (rest % left) as usize);
            rest /= left;
        }
        Order { rows }
    }

    // Whether the lowest rank in which two orders differ has the earlier row in this one. A derived order would begin at
    // the highest rank.
    fn before(&self, other: &Order) -> bool {
        self.rows.iter().rev().lt(other.rows.iter().rev())
    }
}

// How many orders so many rows have.
const ORDERS: [u64; ROWS + 1] = [1, 1, 2, 6, 24, 120, 720];

impl Table {
    // With its rows in an order's sequence.
    pub fn arranged(&self, order: &Order) -> Table {
        let rows = self.rows();
        let mut ranked = [Row::default(); ROWS];
        for (place, i) in ranked.iter_mut().zip(order.rows) {
            if let Some(row) = rows.get(i) {
                *place = *row;
            }
        }
        Table::new(self.board, &ranked[..rows.len()])
    }

    // Whether an order of its rows is stable.
    fn is_stable(&self, order: &Order) -> bool {
        self.arranged(order).judged().is_ok_and(|m| m.stable)
    }
}

// How many orders are stable, and the first of them by document 01's rule.
#[derive(Clone, Copy)]
pub struct Found {
    pub orders: u64,
    pub first: Order,
}

impl Found {
    // With one more stable order.
    fn and(self, order: Order) -> Self {
        Found {
            orders: self.orders.wrapping_add(1),
            first: if order.before(&self.first) {
                order
            } else {
                self.first
            },
        }
    }
}

// Tries every order of a table.
pub fn first_stable(table: &Table) -> Option<Found> {
    let n = table.rows().len();
    let mut found: Option<Found> = None;
    for code in 0..ORDERS[n] {
        let order = Order::at(n, code);
        if table.is_stable(&order) {
            found = match found {
                Some(found) => Some(found.and(order)),
                None => Some(Found {
                    orders: 1,
                    first: order,
                }),
            };
        }
    }
    found
}
