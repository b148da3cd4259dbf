// The cubic B-spline basis on a span, with its derivatives: algorithm A2.3 of The NURBS Book, over any scalar. The knots are the six that a span reads: a
// whole list of them would be slow to copy where a scalar is a value with partials.
// Stays: the loops over j, r and k go by index, as A2.3's do: what a turn reads and writes of the table stands in rows and columns that it computes.
#![tactic(auto)]

ghost use Rattle.std.specs.Prelude.{◌≡◌, ◌≤◌, length, map};
ghost use Rattle.meaning.specs.Scalar.{zero64};
ghost use Rattle.meaning.specs.Table.{at1};
ghost use Rattle.basis_columns.specs.Columns.{below, column_at};
ghost use Rattle.basis.specs.Triangle.{column_of, triangle_of};
ghost use Rattle.basis.specs.Derivatives.{first_coef, mid_coefs, last_coef, order_of};
ghost use Rattle.basis.specs.Basis.{values_of, function_of, scaled, derivatives_of, basis_of};
ghost use Rattle.derivatives.specs.View.{coefs};

use basis_straight::cell_of;
use scalar::Scalar;

// What stands at i of a row of the table, or of a row of coefficients.
#[inline]
fn entry<S: Scalar>(row: &[S; 4], i: usize) -> S
    requires { i ≤ 3 }
    ensures { result ≡ at1 S.ops row.now i }
{
    row[i]
}

// Column j of the table: the inner loop, and the entry on the diagonal.
fn column_of<S: Scalar>(left: &[S; 4], right: &[S; 4], j: usize, ndu: &mut [[S; 4]; 4])
    requires { j ≤ 3 }
    ensures { ndu.new ≡ column_of S.ops left.now right.now j ndu.old }
{
    let mut saved = S::cst(0.0);
    for r in 0..j {
        let cell = cell_of(
            entry(right, r + 1),
            entry(left, j - r),
            entry(&ndu[r], j - 1),
            saved,
        );
        ndu[j][r] = cell.gap;
        ndu[r][j] = cell.value;
        saved = cell.saved;
    }
    ndu[j][j] = saved;
}

// The table of the span whose six knots are w, at t.
fn triangle_of<S: Scalar>(w: &[S; 6], t: S) -> [[S; 4]; 4]
    ensures { result ≡ triangle_of S.ops w.now 2 t }
{
    let zeros = [S::cst(0.0); 4];
    let mut ndu = [zeros; 4];
    ndu[0][0] = S::cst(1.0);
    let mut left = zeros;
    let mut right = zeros;
    for j in 1..4 {
        left[j] = t.minus(w[3 - j]);
        right[j] = w[2 + j].minus(t);
        column_of(&left, &right, j, &mut ndu);
    }
    ndu
}

// Order k of function r, as the table of A2.3 has them.
#[derive(Clone, Copy)]
struct Order {
    r: usize,
    k: usize,
    ghost one_of_four: { r ≤ 3 },
    ghost from_one: { 1 ≤ k },
    ghost to_three: { k ≤ 3 },
}

// A2.3 has two rows of coefficients, of the order before, `old`, and of the order at hand, `new`, and the sum d of the products with them.
impl Order {
    // The column rk + j of the table.
    fn column(self, j: usize) -> usize
        requires { j ≤ 3 }
        ensures { result ≡ column_at (below self.r self.k) j }
    {
        basis_columns::column_at(self.r as u8, self.k as u8, j as u8)
    }

    // Coefficient 0, which there is where r is k or more, and the sum begun with its product.
    fn first_coef<S: Scalar>(self, ndu: &[[S; 4]; 4], old: &[S; 4], new: &mut [S; 4], d: S) -> S
        ensures { coefs old.now new.new result ≡ first_coef S.ops ndu.now self.r self.k (coefs old.now new.old d) }
    {
        if self.r < self.k {
            return d;
        }
        let column = self.column(0);
        let a = entry(old, 0).over(entry(&ndu[4 - self.k], column));
        new[0] = a;
        a.times(entry(&ndu[column], 3 - self.k))
    }

    // The coefficients j1 to j2, and the sum with their products.
    fn mid_coefs<S: Scalar>(self, ndu: &[[S; 4]; 4], old: &[S; 4], new: &mut [S; 4], d: S) -> S
        ensures { coefs old.now new.new result ≡ mid_coefs S.ops ndu.now self.r self.k (coefs old.now new.old d) }
    {
        let first = basis_columns::first_j(self.r as u8, self.k as u8);
        let end = basis_columns::end_j(self.r as u8, self.k as u8);
        let mut sum = d;
        for j in first..end {
            let column = self.column(j);
            let a = entry(old, j)
                .minus(entry(old, j - 1))
                .over(entry(&ndu[4 - self.k], column));
            new[j] = a;
            sum = sum.plus(a.times(entry(&ndu[column], 3 - self.k)));
        }
        sum
    }

    // Coefficient k, which there is where r is 3 - k or less, and the sum with its product.
    fn last_coef<S: Scalar>(self, ndu: &[[S; 4]; 4], old: &[S; 4], new: &mut [S; 4], d: S) -> S
        ensures { coefs old.now new.new result ≡ last_coef S.ops ndu.now self.r self.k (coefs old.now new.old d) }
    {
        if self.r > 3 - self.k {
            return d;
        }
        let a = entry(old, self.k - 1)
            .opp()
            .over(entry(&ndu[4 - self.k], self.r));
        new[self.k] = a;
        d.plus(a.times(entry(&ndu[self.r], 3 - self.k)))
    }

    // The derivative, but for the factor, and the two rows in each other's place.
    fn order_of<S: Scalar>(self, ndu: &[[S; 4]; 4], old: &mut [S; 4], new: &mut [S; 4]) -> S
        ensures { coefs old.new new.new result ≡ order_of S.ops ndu.now self.r self.k (coefs old.old new.old (S.ops.cst zero64)) }
    {
        let first = self.first_coef(ndu, old, new, S::cst(0.0));
        let mid = self.mid_coefs(ndu, old, new, first);
        let last = self.last_coef(ndu, old, new, mid);
        std::mem::swap(old, new);
        last
    }
}

// The values in row 0, from the table's last column, and zeros below.
fn values_of<S: Scalar>(ndu: &[[S; 4]; 4]) -> [[S; 4]; 5]
    ensures { result ≡ values_of S.ops ndu.now }
{
    let zeros = [S::cst(0.0); 4];
    let values = [
        entry(&ndu[0], 3),
        entry(&ndu[1], 3),
        entry(&ndu[2], 3),
        entry(&ndu[3], 3),
    ];
    [values, zeros, zeros, zeros, zeros]
}

// The orders 1 to n of function r, but for their factors.
fn function_of<S: Scalar>(ndu: &[[S; 4]; 4], n: usize, r: usize, ders: &mut [[S; 4]; 5])
    requires function { r ≤ 3 }
    requires orders { n ≤ 3 }
    ensures { ders.new ≡ function_of S.ops ndu.now n r ders.old }
{
    let zero = S::cst(0.0);
    let mut old = [S::cst(1.0), zero, zero, zero];
    let mut new = [zero; 4];
    for k in 1..n + 1 {
        ders[k][r] = Order { r, k }.order_of(ndu, &mut old, &mut new);
    }
}

// Each number of a row times a factor.
fn scaled_row<S: Scalar>(row: &mut [S; 4], by: S)
    ensures four { length row.old ≡ 4 }
    ensures value { row.new ≡ map (λ x. S.ops.times x by) row.old }
{
    for x in row.iter_mut() {
        *x = x.times(by);
    }
}

// Each row from 1 to n times its factor: 3, 3 * 2, 3 * 2 * 1.
fn scaled_by<S: Scalar>(n: usize, ders: &mut [[S; 4]; 5])
    requires { n ≤ 3 }
    ensures { ders.new ≡ scaled S.ops n ders.old }
{
    let mut factor = 3.0;
    for k in 1..n + 1 {
        scaled_row(&mut ders[k], S::cst(factor));
        factor *= (3 - k) as f64;
    }
}

// The four basis functions of a span at t, with their derivatives up to order nd in the rows 0 to nd. The span is given by the six knots w that
// it reads: for span i those from knot i - 2 to knot i + 3.
// Corresponds to spline.rs: Curve::basis.
pub fn basis<S: Scalar>(w: &[S; 6], t: S, nd: usize) -> [[S; 4]; 5]
    ensures { result ≡ derivatives_of S.ops w.now 2 t nd }
{
    if nd == 0 {
        let zeros = [S::cst(0.0); 4];
        return [basis_straight::values(w, t), zeros, zeros, zeros, zeros];
    }
    let ndu = triangle_of(w, t);
    let mut ders = values_of(&ndu);
    let n = basis_columns::orders_of(nd);
    for r in 0..4 {
        function_of(&ndu, n, r, &mut ders);
    }
    scaled_by(n, &mut ders);
    ders
}

// The same for span i of the knots u in their room of 70; zeros where i is no span of it.
// Corresponds to spline.rs: Curve::basis.
pub fn basis_in<S: Scalar>(u: &[S; 70], i: usize, t: S, nd: usize) -> [[S; 4]; 5]
    ensures { result ≡ basis_of S.ops u.now i t nd }
{
    match i {
        3..=65 => {
            let w = [u[i - 2], u[i - 1], u[i], u[i + 1], u[i + 2], u[i + 3]];
            basis(&w, t, nd)
        }
        _ => [[S::cst(0.0); 4]; 5],
    }
}
