// How numbers and values with partials cross between C and the library: read from slices that may be too short, and answered in slices that may have no room.
#![tactic(auto)]

ghost use Rattle.std.specs.Prelude.{◌≡◌, ◌∷◌, ◌+◌, ◌≤◌, length, get_or};
ghost use Rattle.std.proofs.Math.Seq.{paste};
ghost use Rattle.plane.specs.View.{view};
ghost use Rattle.meaning.specs.Search.{listed};
ghost use Rattle.c_values.specs.Crossing.{entry_of, read_dv, read_v, read_six, value_of, all_numbers, AnsweredD, AnsweredV, AnsweredP, AnsweredB};

use partials::Dv;
use plane::P2;
use std::array;

// The number at i, +0.0 where there is none.
fn entry(s: &[f64], i: usize) -> f64
    ensures { result ≡ entry_of s.now i }
{
    s.get(i).copied().unwrap_or(0.0)
}

// The count at i, 0 where there is none.
fn count_at(ns: &[u64], i: usize) -> usize
    ensures { result ≡ get_or ns.now i 0 }
{
    ns.get(i).copied().unwrap_or(0) as usize
}

// The value with n partials that stands in s from index at on.
fn read(s: &[f64], at: usize, n: usize) -> Dv
    requires { at ≤ 140 }
    ensures { result ≡ read_dv s.now at n }
{
    Dv {
        v: entry(s, at),
        g: array::from_fn(|k| entry(s, at + 1 + k)),
        n,
    }
}

// The value with n partials that stands in s.
pub fn read_value(s: &[f64], n: usize) -> Dv
    ensures { result ≡ read_dv s.now 0 n }
{
    read(s, 0, n)
}

// The vector with partials that stands in s.
pub fn read_vector(s: &[f64], ns: &[u64]) -> P2<Dv>
    ensures { view result ≡ read_v s.now ns.now }
{
    P2 {
        x: read(s, 0, count_at(ns, 0)),
        y: read(s, 28, count_at(ns, 1)),
    }
}

// The six values with partials that stand in s, one behind the other.
pub fn read_six(s: &[f64], ns: &[u64]) -> [Dv; 6]
    ensures { result ≡ read_six s.now ns.now }
{
    array::from_fn(|i| read(s, 28 * i, count_at(ns, i)))
}

// Puts the numbers of d into out from index at on.
fn write(d: Dv, out: &mut [f64], at: usize)
    requires { at + 28 ≤ length out.old }
    ensures out_after { out.new ≡ paste out.old at (d.v ∷ d.g) 28 }
    ensures g_len { length d.g ≡ 27 }
{
    out[at] = d.v;
    out[at + 1..at + 28].copy_from_slice(&d.g);
}

// Stays: the answers below are C's numbers, 0 and that of rule 14.
// Answers a value with partials: 14 where out has no room for it.
pub fn answer(d: Dv, out: &mut [f64], count: &mut u64) -> u64
    ensures { AnsweredD d out.old count.old result out.new count.new }
{
    if out.len() < 28 {
        return 14;
    }
    write(d, out, 0);
    *count = d.n as u64;
    0
}

// Answers a vector with partials: 14 where out or counts has no room for it.
pub fn answer_vector(a: P2<Dv>, out: &mut [f64], counts: &mut [u64]) -> u64
    ensures { AnsweredV (view a) out.old counts.old result out.new counts.new }
{
    if out.len() < 56 {
        return 14;
    }
    if counts.len() < 2 {
        return 14;
    }
    write(a.x, out, 0);
    write(a.y, out, 28);
    counts[0] = a.x.n as u64;
    counts[1] = a.y.n as u64;
    0
}

// Answers two doubles: 14 where out has no room for them.
pub fn answer_pair(a: P2<f64>, out: &mut [f64]) -> u64
    ensures { AnsweredP (view a) out.old result out.new }
{
    if out.len() < 2 {
        return 14;
    }
    out[0] = a.x;
    out[1] = a.y;
    0
}

// Puts the values of five rows into out, one behind the other, and their counts into counts.
// Stays: the place of a value in out is its number among the 20, which no iterator over rows of rows counts for its proof.
fn write_rows(rows: [[Dv; 4]; 5], out: &mut [f64], counts: &mut [u64])
    requires fact_1 { 560 ≤ length out.old }
    requires fact_2 { 20 ≤ length counts.old }
    ensures out_after { out.new ≡ paste out.old 0 (all_numbers (listed 0 20 (value_of rows))) 560 }
    ensures counts_after { counts.new ≡ paste counts.old 0 (listed 0 20 (λ i. (value_of rows i).n)) 20 }
{
    for i in 0..20 {
        let d = rows[i / 4][i % 4];
        write(d, out, 28 * i);
        counts[i] = d.n as u64;
    }
}

// Answers the orders of a basis: 14 where out or counts has no room for them.
pub fn answer_rows(rows: [[Dv; 4]; 5], out: &mut [f64], counts: &mut [u64]) -> u64
    ensures { AnsweredB rows out.old counts.old result out.new counts.new }
{
    if out.len() < 560 {
        return 14;
    }
    if counts.len() < 20 {
        return 14;
    }
    write_rows(rows, out, counts);
    0
}
