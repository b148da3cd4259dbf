// Gaussian elimination with partial pivoting and back substitution in a lent work buffer, on doubles.
#![tactic(auto)]

ghost use Rattle.std.specs.Prelude.{◌≡◌, ◌++◌, ◌+◌, ◌*◌, ◌≤◌, length, drop, replicate};
ghost use Rattle.meaning.specs.Scalar.{plain, zero64};
ghost use Rattle.solve.specs.Rows.{rows_of};
ghost use Rattle.solve.specs.Outcome.{solution_of, work_of};
ghost use Rattle.solve.specs.Buffer.{solve_of};
ghost use Rattle.solve.specs.View.{view};

mod dense;
mod rows;
mod work;

pub use dense::solve_rows;
use row_order::RowOrder;
pub use rows::Rows;
use work::Plain;

// The coordinates of the control points, +0.0 past their number.
#[derive(Clone, Copy)]
pub struct Solved {
    pub xs: [f64; 66],
    pub ys: [f64; 66],
}

// The answers of the m rows that lie at the front of w, if every number stored on the way was finite; their room is cleared.
fn solve_lent(w: &mut [f64], m: usize) -> Option<Solved>
    requires { (m ≤ 66) × (m * (m + 2) ≤ length w.old) }
    ensures answer { view result ≡ solution_of plain m (rows_of m (m + 2) w.old) }
    ensures left { w.new ≡ replicate (m * (m + 2)) zero64 ++ drop (m * (m + 2)) w.old }
{
    let order = RowOrder::new(m);
    let mut rows = Plain { w: &mut *w, order };
    let fine = solve_rows(&mut rows);
    let xs = rows.column(m);
    let ys = rows.column(m + 1);
    w[..m * (m + 2)].fill(0.0);
    if !fine {
        return None;
    }
    Some(Solved { xs, ys })
}

// Solves the m rows of m matrix numbers and two right sides that lie at the front of w, and clears their room, m² + 2m doubles. Where m is 0 or
// above 66, or w is shorter, w stays as it is and there is no answer; nor is there one where a number stored on the way is not finite. The numbers that
// lie in w at first are the caller's to judge.
// Corresponds to spline.rs: solve.
pub fn solve(w: &mut [f64], m: usize) -> Option<Solved>
    ensures fact_1 { view result ≡ solve_of m w.old }
    ensures fact_2 { w.new ≡ work_of m w.old }
{
    if m < 1 || m > 66 || w.len() < m * (m + 2) {
        return None;
    }
    solve_lent(w, m)
}
