// The solve in place, of any store of rows. Each function answers whether every number that it stored, and every multiplier, is finite.
ghost use Rattle.std.specs.Prelude.{◌≡◌, [], ◌+◌, ◌<◌, length, get_or};
ghost use Rattle.solve.specs.Rows.{Shaped};
ghost use Rattle.solve.specs.Left.{Becomes};
ghost use Rattle.solve.specs.Elimination.{reduced_rows, column_done, eliminated};
ghost use Rattle.solve.specs.Substitution.{backed, solved};
ghost use Rattle.solve.specs.Stored.{solved_ok};
ghost use Rattle.solve.specs.Verdicts.{reduced_rows_ok, column_ok, eliminated_ok, backed_ok};

use crate::rows::Rows;

// The rows below row col, reduced by it.
fn reduce_rows<R: Rows>(rows: &mut R, col: usize) -> bool
    requires { col < length (R.rows rows.old) }
    ensures rows { let m = length (R.rows rows.old) in
        Becomes (λ M. reduced_rows R.ops m m col (get_or M col []) M) (λ M. reduced_rows_ok R.ops m m col (get_or M col []) M)
        (R.rows rows.old) (R.rows rows.new) result }
    ensures same { R.same rows.old rows.new }
{
    let m = rows.count();
    let pivot = rows.pivot_row(col);
    let mut fine = true;
    for r in col + 1..m {
        fine = number::both(fine, rows.reduce(&pivot, col, r));
    }
    fine
}

// Column col's whole step: the pivot row, which comes to stand in row col, and the rows below reduced by it.
fn eliminate_column<R: Rows>(rows: &mut R, col: usize) -> bool
    requires { col < length (R.rows rows.old) }
    ensures rows { let m = length (R.rows rows.old) in
        Becomes (column_done R.ops m col) (column_ok R.ops m col) (R.rows rows.old) (R.rows rows.new) result }
    ensures same { R.same rows.old rows.new }
{
    let best = rows.find_pivot(col);
    rows.exchange(col, best);
    reduce_rows(rows, col)
}

// Every column, in rising order.
fn eliminate<R: Rows>(rows: &mut R) -> bool
    ensures shape { let m = length (R.rows rows.old) in Shaped m (m + 2) (R.rows rows.old) }
    ensures rows { let m = length (R.rows rows.old) in
        Becomes (eliminated R.ops m m) (eliminated_ok R.ops m m) (R.rows rows.old) (R.rows rows.new) result }
    ensures same { R.same rows.old rows.new }
{
    let mut fine = true;
    for col in 0..rows.count() {
        fine = number::both(fine, eliminate_column(rows, col));
    }
    fine
}

// Every row answered, from the last one up.
fn substitute<R: Rows>(rows: &mut R) -> bool
    ensures rows { let m = length (R.rows rows.old) in
        Becomes (backed R.ops m m) (backed_ok R.ops m m) (R.rows rows.old) (R.rows rows.new) result }
    ensures same { R.same rows.old rows.new }
{
    let mut fine = true;
    for i in 0..rows.count() {
        fine = number::both(fine, rows.answer(i));
    }
    fine
}

// The rows solved: their right sides are the answers.
pub fn solve_rows<R: Rows>(rows: &mut R) -> bool
    ensures rows { let m = length (R.rows rows.old) in
        Becomes (solved R.ops m) (solved_ok R.ops m) (R.rows rows.old) (R.rows rows.new) result }
    ensures same { R.same rows.old rows.new }
{
    let first = eliminate(rows);
    let second = substitute(rows);
    number::both(first, second)
}
