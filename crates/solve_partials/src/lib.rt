// Gaussian elimination with partial pivoting and back substitution in two lent slices, on values with partials.
#![tactic(auto)]

ghost use Rattle.std.specs.Prelude.{◌≡◌, ◌+◌, ◌*◌, ◌<◌, ◌≤◌, length, get_or, drop, replicate, ◌++◌};
ghost use Rattle.meaning.specs.Scalar.{zero64};
ghost use Rattle.partials.specs.Dual.{dual, cst_dv};
ghost use Rattle.solve.specs.Rows.{rows_of};
ghost use Rattle.solve.specs.Outcome.{column, zeros, solution_of};
ghost use Rattle.solve_partials.specs.Held.{held, Room};
ghost use Rattle.solve_partials.specs.Outcome.{fits, room_of, rows_in, four, four_of, solution_in, doubles_left, counts_left};
ghost use Rattle.solve_partials.specs.Store.{rows_held};
ghost use Rattle.solve_partials.specs.View.{view};

mod cell;
mod rows;
mod work;

use partials::Dv;
use row_order::RowOrder;
use work::Cells;

// Four control points.
#[derive(Clone, Copy)]
pub struct Four {
    pub xs: [Dv; 4],
    pub ys: [Dv; 4],
}

impl Cells<'_> {
    // Right side b of row at + i: +0.0 where there is no such row.
    fn answer_at(&self, b: usize, at: usize, i: usize) -> Dv
        requires { (b < self.now.order.rows + 2) × (i ≤ 3) }
        ensures { result ≡ get_or (column dual self.now.order.rows (rows_held self.now) b (zeros dual)) (at + i) (cst_dv zero64) }
    {
        if self.order.rows <= at || self.order.rows <= at + i {
            return Dv::cst(0.0);
        }
        self.value_in(self.cell(at + i, b))
    }

    // Right side b of the four rows from row at on.
    fn four_of(&self, b: usize, at: usize) -> [Dv; 4]
        requires { b < self.now.order.rows + 2 }
        ensures { result ≡ four at (column dual self.now.order.rows (rows_held self.now) b (zeros dual)) }
    {
        let p = self.answer_at(b, at, 0);
        let q = self.answer_at(b, at, 1);
        let r = self.answer_at(b, at, 2);
        let s = self.answer_at(b, at, 3);
        [p, q, r, s]
    }
}

// Four answers of the rows that the slices are, if every number stored on the way was finite; both are cleared.
fn solve_lent(w: &mut [f64], ns: &mut [u8], m: usize, c: usize, at: usize) -> Option<Four>
    requires { Room c w.old ns.old × (length ns.old ≡ room_of m) × (m ≤ 14) }
    ensures answers { view result ≡ four_of at (solution_of dual m (rows_of m (m + 2) (held c w.old ns.old))) }
    ensures doubles { w.new ≡ replicate (length w.old) zero64 }
    ensures counts { ns.new ≡ replicate (length ns.old) 0 }
{
    let order = RowOrder::new(m);
    let mut rows = Cells {
        w: &mut *w,
        ns: &mut *ns,
        c,
        order,
    };
    let fine = solve::solve_rows(&mut rows);
    let xs = rows.four_of(m, at);
    let ys = rows.four_of(m + 1, at);
    w.fill(0.0);
    ns.fill(0);
    if !fine {
        return None;
    }
    Some(Four { xs, ys })
}

// Four answers of the rows at the front of the slices, which have room for them; that room is cleared.
fn solve_front(w: &mut [f64], ns: &mut [u8], m: usize, c: usize, at: usize) -> Option<Four>
    requires { (m ≤ 14) × (c ≤ 27) × (room_of m ≤ length ns.old) × (room_of m * (c + 1) ≤ length w.old) }
    ensures answers { view result ≡ four_of at (solution_of dual m (rows_in m c w.old ns.old)) }
    ensures doubles { w.new ≡ replicate (room_of m * (c + 1)) zero64 ++ drop (room_of m * (c + 1)) w.old }
    ensures counts { ns.new ≡ replicate (room_of m) 0 ++ drop (room_of m) ns.old }
{
    let n = m * (m + 2);
    let e = n * (c + 1);
    solve_lent(&mut w[..e], &mut ns[..n], m, c, at)
}

// Whether m rows with room for c partials fit into slices of so many doubles and bytes.
fn has_room(m: usize, c: usize, doubles: usize, bytes: usize) -> bool
    ensures { result ≡ fits m c doubles bytes }
{
    1 <= m && m <= 14 && c <= 27 && m * (m + 2) <= bytes && m * (m + 2) * (c + 1) <= doubles
}

// Solves the m rows of m + 2 cells, with room for c partials each, that lie at the front of the slices, and clears their room: (m² + 2m)(1 + c)
// doubles and m² + 2m bytes. Answers the control points at, at + 1, at + 2 and at + 3, +0.0 where there is none. Where m is 0 or above 14, c above 27,
// or a slice is shorter, the slices stay as they are and there is no answer; nor is there one where a number stored on the way is not finite. The numbers
// that lie in the slices at first are the caller's to judge.
// Corresponds to spline.rs: solve.
pub fn solve(w: &mut [f64], ns: &mut [u8], m: usize, c: usize, at: usize) -> Option<Four>
    ensures answers { view result ≡ four_of at (solution_in m c w.old ns.old) }
    ensures doubles { w.new ≡ doubles_left m c w.old ns.old }
    ensures counts { ns.new ≡ counts_left m c w.old ns.old }
{
    if !has_room(m, c, w.len(), ns.len()) {
        return None;
    }
    solve_front(w, ns, m, c, at)
}
