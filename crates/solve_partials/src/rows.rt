// The rows of cells, by their order: what a solve asks of them.
ghost use Rattle.std.specs.Prelude.{◌≡◌, [], ⊤, ◌+◌, ◌-◌, ◌*◌, ◌<◌, ◌≤◌, length, get_or, set};
ghost use Rattle.std.proofs.Common.{refl, ◌∙◌};
ghost use Rattle.meaning.specs.Table.{at2};
ghost use Rattle.partials.specs.Dual.{dual};
ghost use Rattle.row_order.specs.Order.{place_of};
ghost use Rattle.solve.specs.Left.{Becomes};
ghost use Rattle.solve.specs.Placed.{rows_by};
ghost use Rattle.solve.specs.Elimination.{subtracted};
ghost use Rattle.solve.specs.Substitution.{remains, answer};
ghost use Rattle.solve.specs.Verdicts.{subtracted_ok};
ghost use Rattle.solve_partials.specs.Held.{held, valued, Clean};
ghost use Rattle.solve_partials.specs.Store.{rows_held, Alike};
ghost use Rattle.cells.specs.Normal.{Normal};

use crate::work::Cells;
use partials::Dv;
use solve::Rows;

impl Cells<'_> {
    // The cell that number k of row r lies in.
    pub(crate) fn cell(&self, r: usize, k: usize) -> usize
        requires { (r < self.now.order.rows) × (k < self.now.order.rows + 2) }
        ensures value { result ≡ place_of self.now.order.places r * (self.now.order.rows + 2) + k }
        ensures within { result < length self.now.ns.now }
    {
        self.order.places[r] * (self.order.rows + 2) + k
    }

    // The value of number k of row r alone.
    fn value_of(&self, r: usize, k: usize) -> f64
        requires { (r < self.now.order.rows) × (k < self.now.order.rows + 2) }
        ensures { result ≡ (at2 dual (rows_held self.now) r k).v }
    {
        self.value_at(self.cell(r, k))
    }

    // Row r less f times row col above it, from column col on. Answers whether every number stored is finite.
    fn subtract_row(&mut self, col: usize, r: usize, f: &[f64; 28], nf: usize) -> bool
        requires { (col < r) × (r < self.old.order.rows) × (nf ≤ self.old.c) × Clean f.now nf }
        ensures rows { let s = self.old in
            let t = self.new in
            let m = s.order.rows in
            Becomes (λ M. set M r (subtracted dual m col (valued f.now nf) (get_or M col []) (get_or M r [])))
            (λ M. subtracted_ok dual m col (valued f.now nf) (get_or M col []) (get_or M r []))
            (rows_held s) (rows_by m s.order.places (held s.c t.w.now t.ns.now)) result }
        ensures same { Alike self.old self.new }
    {
        let m = self.order.rows;
        let t = self.cell(r, 0);
        let p = self.cell(col, 0);
        let mut fine = true;
        for k in col..m + 2 {
            fine = number::both(fine, self.reduce_cell(k < m, t + k, p + k, f, nf));
        }
        fine
    }

    // Right side b of row r less the terms of the rows below it, which hold their answers.
    fn remaining(&self, r: usize, b: usize) -> Dv
        requires { (r < self.now.order.rows) × (b < self.now.order.rows + 2) }
        ensures { let s = self.now in Normal s.c result × (result ≡ remains dual (rows_held s) r b r (s.order.rows - 1 - r)) }
    {
        let first = self.cell(r, b);
        let own = self.cell(r, 0);
        let mut acc = self.load(first);
        let mut n = self.count(first);
        for below in r + 1..self.order.rows {
            n = self.less_term(&mut acc, n, self.cell(below, b), own + below);
        }
        cells::value(&acc, n)
    }

    // Answer b of row r.
    fn answer_of(&self, r: usize, b: usize) -> Dv
        requires { (r < self.now.order.rows) × (b < self.now.order.rows + 2) }
        ensures { let s = self.now in Normal s.c result × (result ≡ answer dual (rows_held s) r b r (s.order.rows - 1 - r)) }
    {
        let own = self.cell(r, r);
        self.divided(self.remaining(r, b), own)
    }
}

impl Rows for Cells<'_> {
    type Number = Dv;
    // A pivot's row is read where it lies.
    type Pivot = ();

    ghost ops = { dual };

    ghost rows = { rows_held };

    ghost same = { λ a b. (length (rows_held b) ≡ length (rows_held a))
        × (b.w.ghost_name ≡ a.w.ghost_name) × (b.ns.ghost_name ≡ a.ns.ghost_name) × (b.c ≡ a.c) × (b.order.rows ≡ a.order.rows) };

    ghost kept = { λ a col p. ⊤ };

    fn count(&self) -> usize {
        self.order.rows
    }

    // The last of equals. Stays: it is the plain rows' loop again, as both are timed: a row and its number are kept. And the edit `first_of_equal_pivots`
    // of either crate is of its own loop.
    fn find_pivot(&self, col: usize) -> usize {
        let m = self.order.rows;
        if col >= m {
            return col;
        }
        let mut best = col;
        let mut top = self.value_of(col, col);
        for r in col + 1..m {
            let v = self.value_of(r, col);
            if number::at_least(v, top) {
                best = r;
                top = v;
            }
        }
        best
    }

    fn exchange(&mut self, i: usize, j: usize) {
        self.order.exchange(i, j);
    }

    fn pivot_row(&self, _col: usize) {}

    // Skipped where the number in column col compares equal to 0.
    fn reduce(&mut self, _pivot: &(), col: usize, r: usize) -> bool {
        if r >= self.order.rows || col >= r {
            return true;
        }
        let t = self.cell(r, col);
        if self.value_at(t) == 0.0 {
            return true;
        }
        let f = self.quotient(t, self.cell(col, col));
        let parts = cells::doubles(f);
        let n = f.n;
        let fine = self.subtract_row(col, r, &parts, n);
        number::both(f.is_fine(), fine)
    }

    fn answer(&mut self, i: usize) -> bool {
        let m = self.order.rows;
        if i >= m {
            return true;
        }
        let r = m - 1 - i;
        let x = self.answer_of(r, m);
        let y = self.answer_of(r, m + 1);
        let base = self.cell(r, 0);
        self.put_two(base + m, base + (m + 1), x, y);
        number::both(x.is_fine(), y.is_fine())
    }

    ghost again = { λ a. (refl, refl, refl, refl, refl) };

    ghost along = { λ a b c p q. (q.0 ∙ p.0, q.1 ∙ p.1, q.2 ∙ p.2, q.3 ∙ p.3, q.4 ∙ p.4) };

    ghost as_many = { λ a b p. p.0 };
}
