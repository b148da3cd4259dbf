// Rows of doubles in the work buffer, one after the other at its front. They stay where they lie, and an order tells the place of each.
ghost use Rattle.std.specs.Prelude.{◌≡◌, [], ◌++◌, ◌+◌, ◌-◌, ◌*◌, ◌<◌, ◌≤◌, length, take, drop, get_or, replicate};
ghost use Rattle.std.proofs.Common.{refl, ◌∙◌};
ghost use Rattle.meaning.specs.Scalar.{plain, zero64};
ghost use Rattle.meaning.specs.Table.{at2};
ghost use Rattle.row_order.specs.Order.{place_of};
ghost use Rattle.solve.specs.Left.{Becomes};
ghost use Rattle.solve.specs.Placed.{RowsAlone};
ghost use Rattle.solve.specs.Elimination.{less_by, subtracted, reduced};
ghost use Rattle.solve.specs.Substitution.{remains};
ghost use Rattle.solve.specs.Verdicts.{subtracted_ok, reduced_ok};
ghost use Rattle.solve.specs.Outcome.{column, zeros};

use crate::rows::Rows;
use row_order::RowOrder;

// ---- one row

// x less f times y; the multiplier stands first in the matrix and second in the right sides.
// Stays: a closure for each would be chosen by the same test at each number, and no line would go.
fn less_by(matrix: bool, f: f64, x: f64, y: f64) -> f64
    ensures { result ≡ less_by plain matrix f x y }
{
    if matrix {
        return x - f * y;
    }
    x - y * f
}

// A row less f times the row p, from column col on. Answers whether every number stored is finite. The loop keeps whether one is not: that test
// costs a processor less than its opposite.
fn subtract_row(t: &mut [f64], p: &[f64], n: usize, col: usize, f: f64) -> bool
    requires { (col ≤ length t.old) × (length p.now ≡ length t.old) }
    ensures { Becomes (subtracted plain n col f p.now) (subtracted_ok plain n col f p.now) t.old t.new result }
{
    let mut spoilt = false;
    let end = p.len();
    // Stays: the index is asked as well, so that a zip of both rows needs `enumerate` and `skip`, and is no plainer.
    for k in col..end {
        let v = less_by(k < n, f, t[k], p[k]);
        t[k] = v;
        spoilt = number::either(spoilt, !number::is_finite(v));
    }
    !spoilt
}

// A row whose number in column col is eliminated by the pivot row p; skipped where that number compares equal to 0.
// Answers whether the multiplier and every number stored are finite.
fn reduce_row(t: &mut [f64], p: &[f64], n: usize, col: usize) -> bool
    requires { (col < length t.old) × (length p.now ≡ length t.old) }
    ensures { Becomes (reduced plain n col p.now) (reduced_ok plain n col p.now) t.old t.new result }
{
    let x = t[col];
    if x == 0.0 {
        return true;
    }
    let f = x / p[col];
    let fine = subtract_row(t, p, n, col, f);
    number::both(number::is_finite(f), fine)
}

// ---- the rows

#[derive(Drop)]
pub(crate) struct Plain<'a> {
    pub(crate) w: &'a mut [f64],
    pub(crate) order: RowOrder,
    ghost room: { order.rows * (order.rows + 2) ≤ length w.now },
}

impl Plain<'_> {
    ghost use Rattle.solve.specs.Store.{rows_held};

    // Where row r begins.
    fn start(&self, r: usize) -> usize
        requires { r < self.now.order.rows }
        ensures value { result ≡ place_of self.now.order.places r * (self.now.order.rows + 2) }
        ensures within { result + (self.now.order.rows + 2) ≤ length self.now.w.now }
    {
        self.order.places[r] * (self.order.rows + 2)
    }

    // Number k of row r.
    fn number(&self, r: usize, k: usize) -> f64
        requires { (r < self.now.order.rows) × (k < self.now.order.rows + 2) }
        ensures { result ≡ at2 plain (rows_held self.now) r k }
    {
        self.w[self.start(r) + k]
    }

    // Right side c of row r less the terms of the rows below it, which hold their answers.
    fn remaining(&self, r: usize, c: usize) -> f64
        requires { (r < self.now.order.rows) × (c < self.now.order.rows + 2) }
        ensures { result ≡ remains plain (rows_held self.now) r c r (self.now.order.rows - 1 - r) }
    {
        let mut acc = self.number(r, c);
        for below in r + 1..self.order.rows {
            acc = acc - self.number(below, c) * self.number(r, below);
        }
        acc
    }

    // Column c of the rows, +0.0 past them.
    pub(crate) fn column(&self, c: usize) -> [f64; 66]
        requires { c < self.now.order.rows + 2 }
        ensures { result ≡ column plain self.now.order.rows (rows_held self.now) c (zeros plain) }
    {
        let mut out = [0.0; 66];
        let front = &mut out[..self.order.rows];
        for (r, x) in front.iter_mut().enumerate() {
            *x = self.number(r, c);
        }
        out
    }
}

impl Rows for Plain<'_> {
    ghost use Rattle.solve.specs.Store.{rows_held};

    type Number = f64;

    type Pivot = [f64; 68];

    ghost ops = { plain };

    ghost rows = { rows_held };

    ghost same = { λ a b. (length (rows_held b) ≡ length (rows_held a))
        × (b.w.ghost_name ≡ a.w.ghost_name) × RowsAlone a.order.rows a.w.now b.order.rows b.w.now };

    ghost kept = { λ a col p. take (a.order.rows + 2) p ≡ get_or (rows_held a) col [] };

    fn count(&self) -> usize {
        self.order.rows
    }

    // The last of equals. The loop keeps no more than the row and its number: of three numbers a compiler makes one chain of choices, which takes longer
    // than a branch that is seldom taken.
    fn find_pivot(&self, col: usize) -> usize {
        let m = self.order.rows;
        if col >= m {
            return col;
        }
        let mut best = col;
        let mut top = self.number(col, col);
        for r in col + 1..m {
            let v = self.number(r, col);
            if number::at_least(v, top) {
                best = r;
                top = v;
            }
        }
        best
    }

    fn exchange(&mut self, i: usize, j: usize) {
        self.order.exchange(i, j);
    }

    // The row, copied out: a loop that reads one row and writes another is to know that they do not overlap.
    fn pivot_row(&self, col: usize) -> [f64; 68] {
        let mut out = [0.0; 68];
        let m = self.order.rows;
        if col < m {
            let a = self.start(col);
            out[..m + 2].copy_from_slice(&self.w[a..a + (m + 2)]);
        }
        out
    }

    fn reduce(&mut self, pivot: &[f64; 68], col: usize, r: usize) -> bool {
        let m = self.order.rows;
        if col >= m || r >= m {
            return true;
        }
        let a = self.start(r);
        let w = &mut *self.w;
        reduce_row(&mut w[a..a + (m + 2)], &pivot[..m + 2], m, col)
    }

    fn answer(&mut self, i: usize) -> bool {
        let m = self.order.rows;
        if i >= m {
            return true;
        }
        let r = m - 1 - i;
        let inv = 1.0 / self.number(r, r);
        let x = self.remaining(r, m) * inv;
        let y = self.remaining(r, m + 1) * inv;
        let a = self.start(r);
        self.w[a + m] = x;
        self.w[a + (m + 1)] = y;
        number::both(number::is_finite(x), number::is_finite(y))
    }

    ghost again = { λ a. (refl, refl, (refl, refl)) };

    ghost along = { λ a b c p q. (q.0 ∙ p.0, q.1 ∙ p.1, (q.2.0 ∙ p.2.0, q.2.1 ∙ p.2.1)) };

    ghost as_many = { λ a b p. p.0 };
}
