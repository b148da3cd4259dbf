// Rows of cells in the two slices, one after the other: m rows of m matrix numbers and two right sides. They stay where they lie, and an order tells the
// place of each. Here cells stand by their index, and a contract speaks of the list of values that the slices hold.
ghost use Rattle.std.specs.Prelude.{◌≡◌, ◌+◌, ◌*◌, ◌<◌, ◌≤◌, length, get_or, set};
ghost use Rattle.partials.specs.Dual.{cst_dv, sub_dv, mul_dv, div_dv};
ghost use Rattle.meaning.specs.Scalar.{one64};
ghost use Rattle.solve.specs.Elimination.{less_by};
ghost use Rattle.partials.specs.Dual.{dual};
ghost use Rattle.cells.specs.Normal.{Normal};
ghost use Rattle.solve_partials.specs.Held.{held, Room, valued, Clean, count_at, Copied, CellBecomes};

use crate::cell;
use partials::Dv;
use row_order::RowOrder;

#[derive(Drop)]
pub(crate) struct Cells<'a> {
    pub(crate) w: &'a mut [f64],
    pub(crate) ns: &'a mut [u8],
    pub(crate) c: usize,
    pub(crate) order: RowOrder,
    ghost room: { Room c w.now ns.now },
    ghost whole: { length ns.now ≡ order.rows * (order.rows + 2) },
}

impl Cells<'_> {
    ghost use Rattle.solve_partials.specs.Store.{values, value_in, Alike};

    // How many partials the value in cell k has.
    pub(crate) fn count(&self, k: usize) -> usize
        requires { k < length self.now.ns.now }
        ensures { result ≡ count_at self.now.c self.now.ns.now k }
    {
        cells::count(&*self.ns, self.c, k)
    }

    // The value in cell k and its partials, copied out.
    pub(crate) fn load(&self, k: usize) -> [f64; 28]
        requires { k < length self.now.ns.now }
        ensures { let s = self.now in Copied result (count_at s.c s.ns.now k) (value_in s k) }
    {
        let n = self.count(k);
        let a = k * (self.c + 1);
        cell::copy(&self.w[a..a + (self.c + 1)], n)
    }

    // Cell k less the product of a and b. Answers whether what is stored is finite.
    fn subtract_at(&mut self, k: usize, a: &[f64; 28], na: usize, b: &[f64; 28], nb: usize) -> bool
        requires { (k < length self.old.ns.now) × (na ≤ self.old.c) × (nb ≤ self.old.c) × Clean a.now na × Clean b.now nb }
        ensures cell { let s = self.old in
            let t = self.new in
            CellBecomes s.c k (sub_dv (value_in s k) (mul_dv (valued a.now na) (valued b.now nb))) s.w.now s.ns.now t.w.now t.ns.now result }
        ensures same { Alike self.old self.new }
    {
        let old = self.count(k);
        let i = k * (self.c + 1);
        let e = i + (self.c + 1);
        let w = &mut *self.w;
        let t = &mut w[i..e];
        let n = cell::subtract(t, old, a, na, b, nb);
        let fine = cell::all_finite(t, n);
        self.ns[k] = n as u8;
        fine
    }

    // Cell t less f times cell p; the multiplier stands first in the matrix and second in the right sides. Answers whether what is stored is finite.
    // Stays: as the plain rows' choice.
    pub(crate) fn reduce_cell(
        &mut self,
        matrix: bool,
        t: usize,
        p: usize,
        f: &[f64; 28],
        nf: usize,
    ) -> bool
        requires { (t < length self.old.ns.now) × (p < length self.old.ns.now) × (nf ≤ self.old.c) × Clean f.now nf }
        ensures cell { let s = self.old in
            let z = self.new in
            CellBecomes s.c t (less_by dual matrix (valued f.now nf) (value_in s t) (value_in s p)) s.w.now s.ns.now z.w.now z.ns.now result }
        ensures same { Alike self.old self.new }
    {
        let y = self.load(p);
        let ny = self.count(p);
        if matrix {
            return self.subtract_at(t, f, nf, &y, ny);
        }
        self.subtract_at(t, &y, ny, f, nf)
    }

    // The value in cell k.
    pub(crate) fn value_in(&self, k: usize) -> Dv
        requires { k < length self.now.ns.now }
        ensures { (result ≡ value_in self.now k) × Normal self.now.c result }
    {
        cells::get(&*self.w, &*self.ns, self.c, k)
    }

    // Cell i over cell j.
    pub(crate) fn quotient(&self, i: usize, j: usize) -> Dv
        requires { (i < length self.now.ns.now) × (j < length self.now.ns.now) }
        ensures { (result ≡ div_dv (value_in self.now i) (value_in self.now j)) × Normal self.now.c result }
    {
        self.value_in(i) / self.value_in(j)
    }

    // The value of cell k alone.
    pub(crate) fn value_at(&self, k: usize) -> f64
        requires { k < length self.now.ns.now }
        ensures { result ≡ (value_in self.now k).v }
    {
        self.w[k * (self.c + 1)]
    }

    // The value with n partials in acc less the product of cells i and j, in place. Answers how many partials it has then.
    pub(crate) fn less_term(&self, acc: &mut [f64; 28], n: usize, i: usize, j: usize) -> usize
        requires { (i < length self.now.ns.now) × (j < length self.now.ns.now) × (n ≤ self.now.c) }
        ensures { (result ≤ self.now.c)
            × (valued acc.new result ≡ sub_dv (valued acc.old n) (mul_dv (value_in self.now i) (value_in self.now j))) }
    {
        let x = self.load(i);
        let nx = self.count(i);
        let y = self.load(j);
        let ny = self.count(j);
        cell::subtract(acc, n, &x, nx, &y, ny)
    }

    // The value acc times 1 over cell k.
    pub(crate) fn divided(&self, acc: Dv, k: usize) -> Dv
        requires { (k < length self.now.ns.now) × Normal self.now.c acc }
        ensures { (result ≡ mul_dv acc (div_dv (cst_dv one64) (value_in self.now k))) × Normal self.now.c result }
    {
        let x = self.value_in(k);
        acc * (Dv::cst(1.0) / x)
    }

    // Cell i replaced by x, and cell j by y.
    pub(crate) fn put_two(&mut self, i: usize, j: usize, x: Dv, y: Dv)
        requires { (i < length self.old.ns.now) × (j < length self.old.ns.now) × Normal self.old.c x × Normal self.old.c y }
        ensures cells { let t = self.new in held self.old.c t.w.now t.ns.now ≡ set (set (values self.old) i x) j y }
        ensures same { Alike self.old self.new }
    {
        cells::put(&mut *self.w, &mut *self.ns, self.c, i, x);
        cells::put(&mut *self.w, &mut *self.ns, self.c, j, y);
    }
}
