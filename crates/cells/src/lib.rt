// Values with partials in two lent slices: cell k is c + 1 doubles, the value and room for c partials, and a byte, how many of them there are.
#![tactic(auto)]

ghost use Rattle.std.specs.Prelude.{◌≡◌, ◌+◌, ◌*◌, ◌<◌, ◌≤◌, min, length, get_or, set};
ghost use Rattle.std.proofs.Math.Seq.{paste};
ghost use Rattle.std.specs.Float.{nan};
ghost use Rattle.cells.specs.Cell.{value_of, cell_at, doubles_of, has_cell, read_at, doubles_with, counts_with};

use partials::Dv;

// Whether slices of so many doubles and bytes have a cell k. A sum of lengths is made only where it fits a number.
fn has_cell(doubles: usize, bytes: usize, c: usize, k: usize) -> bool
    ensures { result ≡ has_cell doubles bytes c k }
{
    c <= 27 && k <= 223 && k < bytes && k * (c + 1) + (c + 1) <= doubles
}

// The value with n partials that lies in the doubles of a cell.
fn read_cell(t: &[f64], n: usize) -> Dv
    requires { (n < length t.now) × (n ≤ 27) }
    ensures { result ≡ value_of (λ j. get_or t.now j nan) n }
{
    let mut g = [0.0; 27];
    g[..n].copy_from_slice(&t[1..n + 1]);
    Dv { v: t[0], g, n }
}

// What lies in cell k, which there is.
fn get_cell(w: &[f64], ns: &[u8], c: usize, k: usize) -> Dv
    requires { (c ≤ 27) × (k < length ns.now) × (k * (c + 1) + (c + 1) ≤ length w.now) }
    ensures { result ≡ cell_at c w.now ns.now k }
{
    let n = usize::from(ns[k]).min(c);
    let a = k * (c + 1);
    read_cell(&w[a..a + (c + 1)], n)
}

// What lies in cell k of the slices, in rooms for c partials: +0.0 where c is above 27, k above 223, or a slice ends before that cell does.
pub fn get(w: &[f64], ns: &[u8], c: usize, k: usize) -> Dv
    ensures { result ≡ read_at c w.now ns.now k }
{
    if !has_cell(w.len(), ns.len(), c, k) {
        return Dv::cst(0.0);
    }
    get_cell(w, ns, c, k)
}

// The c + 1 doubles of a cell replaced by those of d.
fn write_cell(t: &mut [f64], d: Dv, c: usize)
    requires { length t.old ≡ c + 1 }
    ensures { t.new ≡ doubles_of c d }
{
    let n = d.n.min(27).min(c);
    t[0] = d.v;
    t[1..n + 1].copy_from_slice(&d.g[..n]);
    t[n + 1..].fill(0.0);
}

// Cell k, which there is, replaced by d.
fn put_cell(w: &mut [f64], ns: &mut [u8], c: usize, k: usize, d: Dv)
    requires { (c ≤ 27) × (k < length ns.old) × (k * (c + 1) + (c + 1) ≤ length w.old) }
    ensures { (w.new ≡ paste w.old (k * (c + 1)) (doubles_of c d) (c + 1))
        × (ns.new ≡ set ns.old k (min d.n c)) }
{
    let n = d.n.min(c);
    ns[k] = n as u8;
    let a = k * (c + 1);
    write_cell(&mut w[a..a + (c + 1)], d, c);
}

// How many partials the value in cell k has, in rooms for c of them: 0 where there is no such cell.
pub fn count(ns: &[u8], c: usize, k: usize) -> usize
    ensures { result ≡ min (get_or ns.now k 0) c }
{
    match ns.get(k) {
        Some(n) => usize::from(*n).min(c),
        None => 0,
    }
}

// The value with n partials whose doubles are t; more than 27 are taken for 27.
pub fn value(t: &[f64; 28], n: usize) -> Dv
    ensures { result ≡ value_of (λ j. get_or t.now j nan) (min n 27) }
{
    read_cell(t, n.min(27))
}

// The doubles that d has in a cell with room for 27 partials.
pub fn doubles(d: Dv) -> [f64; 28]
    ensures { result ≡ doubles_of 27 d }
{
    let mut t = [0.0; 28];
    write_cell(&mut t, d, 27);
    t
}

// Puts d into cell k of the slices, in rooms for c partials: its value, its partials, +0.0 where there is none, and in the byte their number, but
// no more than c. Leaves both slices as they are where c is above 27, k above 223, or a slice ends before that cell does.
pub fn put(w: &mut [f64], ns: &mut [u8], c: usize, k: usize, d: Dv)
    ensures fact_1 { w.new ≡ doubles_with c w.old ns.old k d }
    ensures fact_2 { ns.new ≡ counts_with c w.old ns.old k d }
{
    if has_cell(w.len(), ns.len(), c, k) {
        put_cell(w, ns, c, k, d);
    }
}
