// An order of rows, for a solve that leaves its rows where they lie: number r is the place of row r. A solve has at most 66 rows.
#![tactic(auto)]

ghost use Rattle.std.specs.Prelude.{◌≡◌, min};
ghost use Rattle.meaning.specs.Search.{listed};
ghost use Rattle.row_order.specs.Order.{Order, exchanged_in, exchanged_below};

// Every row at its own place.
pub fn in_order() -> [usize; 66]
    ensures { result ≡ listed 0 66 (λ r. r) }
{
    std::array::from_fn(|r| r)
}

// Rows i and j exchanged: each gets the other's place. Nothing is done where the order has no such row.
pub fn exchange(order: &mut [usize; 66], i: usize, j: usize)
    ensures { order.new ≡ exchanged_in order.old i j }
{
    if i < 66 && j < 66 {
        order.swap(i, j);
    }
}

// The order of so many rows, at most 66: each lies at one of as many places, and at each place lies one.
#[derive(Clone, Copy)]
pub struct RowOrder {
    pub rows: usize,
    pub places: [usize; 66],
    pub ghost permutes: { Order rows places },
}

impl RowOrder {
    // m rows, each at its own place; 66 where m is more.
    pub fn new(m: usize) -> RowOrder
        ensures rows { result.rows ≡ min m 66 }
        ensures places { result.places ≡ listed 0 66 (λ r. r) }
    {
        let places = in_order();
        RowOrder {
            rows: m.min(66),
            places,
        }
    }

    // Rows i and j exchanged; nothing is done where one of them is none of the rows.
    pub fn exchange(&mut self, i: usize, j: usize)
        ensures rows { self.new.rows ≡ self.old.rows }
        ensures places { self.new.places ≡ exchanged_below self.old.rows self.old.places i j }
    {
        if i < self.rows && j < self.rows {
            exchange(&mut self.places, i, j);
        }
    }
}
