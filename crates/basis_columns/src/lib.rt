// The columns that A2.3's derivative loop reads, from signed numbers. They take bytes, far more than the table has columns, so that no
// difference or sum is too large for its type.
#![tactic(auto)]

ghost use Rattle.std.specs.Prelude.{◌≡◌, min};
ghost use Rattle.basis_columns.specs.Columns.{below, column_at, first_j, end_j};

// r - k, which runs below zero.
fn below_by(r: u8, k: u8) -> i64
    ensures { result ≡ below r k }
{
    i64::from(r) - i64::from(k)
}

// The column rk + j, and 0 where that is below zero, which no loop of A2.3 asks for.
pub fn column_at(r: u8, k: u8, j: u8) -> usize
    ensures { result ≡ column_at (below r k) j }
{
    let at = below_by(r, k) + i64::from(j);
    at.max(0) as usize
}

// A2.3's j1: the first j whose column rk + j is not negative, and 1 at least.
pub fn first_j(r: u8, k: u8) -> usize
    ensures { result ≡ first_j (below r k) }
{
    let rk = below_by(r, k);
    if rk >= -1 { 1 } else { (-rk) as usize }
}

// One past A2.3's j2.
pub fn end_j(r: u8, k: u8) -> usize
    ensures { result ≡ end_j r k }
{
    if below_by(r, 1) <= below_by(3, k) {
        usize::from(k)
    } else {
        4usize.saturating_sub(usize::from(r))
    }
}

// The highest order that is worked out where nd is asked for: those above 3 are zero.
pub fn orders_of(nd: usize) -> usize
    ensures { result ≡ min nd 3 }
{
    nd.min(3)
}
