// A sheet's answer: the lines that are printed of it, put into a lent slice of bytes.
#![tactic(auto)]

ghost use Rattle.std.specs.Prelude.{◌≡◌, false, ◌++◌, ◌+◌, ◌*◌, ◌≤◌, ◌<◌, length};
ghost use Rattle.refusal.specs.Refusals.{refusal, number_by};
ghost use Rattle.curve.specs.Build.{build_of};
ghost use Rattle.sheet_read.specs.Number.{glyph};
ghost use Rattle.sheet_read.specs.Grammar.{numbers_at};
ghost use Rattle.sheet_read.specs.Read.{sheet_view};
ghost use Rattle.sheet_read.proofs.Sections.{Limits};
ghost use Rattle.sheet_text.specs.Printed.{hex_text, decimal_text, double_text, refusal_text, head_text, point_text};
ghost use Rattle.sheet_text.specs.Put.{Puts};
ghost use Rattle.sheet_text.specs.Curves.{line_text, lines_text, built_text};
ghost use Rattle.sheet_text.specs.Answer.{sheet_text, sheet_work, answer_text, answer_work, too_short, Answered};
ghost use Rattle.sheet_text.specs.Promise.{LinePromise, LinePromises, BuiltPromise, ReadPromise, SheetPromise};

use curve::Curve;
use refusal::Refusal;
use sheet_read::{Section, Sheet};
use std::array;

// ---- digits

// The byte of a digit.
fn glyph(d: u64) -> u8
    requires { d < 16 }
    ensures { result ≡ glyph d }
{
    b"0123456789ABCDEF"[d as usize]
}

// The 16 digits of b.
fn hex_digits(b: u64) -> [u8; 16]
    ensures { result ≡ hex_text b }
{
    array::from_fn(|i| glyph((b >> (60 - 4 * i as u64)) % 16))
}

// ---- a page

// A lent slice that is written from its front on: `at` bytes are.
#[derive(Drop)]
struct Page<'a> {
    room: &'a mut [u8],
    at: usize,
}

// Stays: printed by hand, since `write!` may fail by its contract, and `answer` may not (`Answered`).
impl Page<'_> {
    // Puts the bytes w behind what is written.
    fn put(&mut self, w: &[u8])
        requires { self.old.at + length w.now ≤ length self.old.room.now }
        ensures same { self.new.room.ghost_name ≡ self.old.room.ghost_name }
        ensures text { Puts self.old w.now self.new }
    {
        let end = self.at + w.len();
        self.room[self.at..end].copy_from_slice(w);
        self.at = end;
    }

    // A number below 100.
    fn put_decimal(&mut self, n: u64)
        requires { self.old.at + 2 ≤ length self.old.room.now }
        ensures same { self.new.room.ghost_name ≡ self.old.room.ghost_name }
        ensures text { Puts self.old (decimal_text n) self.new }
    {
        if n < 10 {
            self.put(&[glyph(n)]);
        } else {
            self.put(&[glyph(n / 10 % 10), glyph(n % 10)]);
        }
    }

    // A word, and a number below 100 after it.
    fn put_number(&mut self, w: &[u8], n: u64)
        requires { self.old.at + (length w.now + 2) ≤ length self.old.room.now }
        ensures same { self.new.room.ghost_name ≡ self.old.room.ghost_name }
        ensures text { Puts self.old (w.now ++ decimal_text n) self.new }
    {
        self.put(w);
        self.put_decimal(n);
    }

    // A word, and the digits of x after it.
    fn put_double(&mut self, w: &[u8], x: f64)
        requires { self.old.at + (length w.now + 16) ≤ length self.old.room.now }
        ensures same { self.new.room.ghost_name ≡ self.old.room.ghost_name }
        ensures text { Puts self.old (w.now ++ double_text x) self.new }
    {
        self.put(w);
        self.put(&hex_digits(number::bits(x)));
    }

    // The line of a refusal.
    fn put_refusal(&mut self, rule: Refusal)
        requires { self.old.at + 5 ≤ length self.old.room.now }
        ensures same { self.new.room.ghost_name ≡ self.old.room.ghost_name }
        ensures text { Puts self.old (refusal_text (refusal (number_by rule))) self.new }
    {
        self.put_number(b"r ", rule.number());
        self.put(b"\n");
    }

    // The first line of a curve's answer.
    fn put_head(&mut self, points: u64, knots: u64)
        requires { self.old.at + 12 ≤ length self.old.room.now }
        ensures same { self.new.room.ghost_name ≡ self.old.room.ghost_name }
        ensures text { Puts self.old (head_text points knots) self.new }
        ensures upper_bound { self.new.at ≤ self.old.at + 12 }
    {
        self.put_number(b"curve ", points);
        self.put_number(b" ", knots);
        self.put(b"\n");
    }

    // The line of a point.
    fn put_point(&mut self, x: f64, y: f64)
        requires { self.old.at + 36 ≤ length self.old.room.now }
        ensures same { self.new.room.ghost_name ≡ self.old.room.ghost_name }
        ensures text { Puts self.old (point_text x y) self.new }
    {
        self.put_double(b"p ", x);
        self.put_double(b" ", y);
        self.put(b"\n");
    }

    // The line of the parameter t.
    fn put_line(&mut self, c: &Curve, t: f64)
        requires { self.old.at + 36 ≤ length self.old.room.now }
        ensures same { self.new.room.ghost_name ≡ self.old.room.ghost_name }
        ensures text { Puts self.old (line_text c.now t) self.new }
        ensures hull { LinePromise c.now t }
    {
        let mut xy = [0.0; 2];
        match point::evaluate(c, t, 0, &mut xy) {
            Ok(()) => self.put_point(xy[0], xy[1]),
            Err(rule) => self.put_refusal(rule),
        }
    }

    // The lines of the parameters that stand in s.
    fn put_lines(&mut self, c: &Curve, s: &[u8], parameters: Section)
        requires few { (parameters.count ≤ 1024) × (parameters.start ≤ 5000) }
        requires room { self.old.at + 36 * parameters.count ≤ length self.old.room.now }
        ensures same { self.new.room.ghost_name ≡ self.old.room.ghost_name }
        ensures text { Puts self.old (lines_text c.now (numbers_at s.now parameters.start parameters.count)) self.new }
        ensures hull { LinePromises c.now (numbers_at s.now parameters.start parameters.count) parameters.count }
    {
        // Stays: each turn reads at the place that its index gives.
        for j in 0..parameters.count {
            self.put_line(c, sheet_read::double(s, parameters.start + 17 * j));
        }
    }

    // What is printed of a build at the parameters that stand in s.
    fn put_built(&mut self, b: Result<Curve, Refusal>, s: &[u8], parameters: Section)
        requires few { (parameters.count ≤ 1024) × (parameters.start ≤ 5000) }
        requires room { self.old.at + (12 + 36 * parameters.count) ≤ length self.old.room.now }
        ensures same { self.new.room.ghost_name ≡ self.old.room.ghost_name }
        ensures text { Puts self.old (built_text (build_of b) (numbers_at s.now parameters.start parameters.count)) self.new }
        ensures hull { BuiltPromise (build_of b) (numbers_at s.now parameters.start parameters.count) parameters.count }
    {
        match b {
            Ok(c) => {
                self.put_head(c.points as u64, c.knot_count as u64);
                self.put_lines(&c, s, parameters);
            }
            Err(rule) => self.put_refusal(rule),
        }
    }
}

// ---- the sheet

// Puts the numbers that stand in s from `start` on into out.
fn take_numbers(s: &[u8], start: usize, out: &mut [f64])
    requires { (length out.old ≤ 1024) × (start ≤ 5000) }
    ensures { out.new ≡ numbers_at s.now start (length out.old) }
{
    for (j, x) in out.iter_mut().enumerate() {
        *x = sheet_read::double(s, start + 17 * j);
    }
}

// Prints the sheet x, which s is the text of.
fn put_sheet(page: &mut Page<'_>, s: &[u8], x: Sheet, work: &mut [f64])
    requires limits { Limits (sheet_view x) }
    requires room { page.old.at + 36876 ≤ length page.old.room.now }
    ensures same { page.new.room.ghost_name ≡ page.old.room.ghost_name }
    ensures text { Puts page.old (sheet_text s.now (sheet_view x) work.old) page.new }
    ensures work { work.new ≡ sheet_work s.now (sheet_view x) work.old }
    ensures hull { ReadPromise s.now (sheet_view x) work.old }
{
    let mut points = [0.0; 132];
    let points = &mut points[..2 * x.points.count];
    take_numbers(s, x.points.start, points);
    let mut knots = [0.0; 70];
    let knots = &mut knots[..x.knots.count];
    take_numbers(s, x.knots.start, knots);
    // `knots 0` means none given
    let given = (x.knots.count != 0).then_some(&*knots);
    let b = build::build(x.form, points, given, work);
    page.put_built(b, s, x.parameters);
}

// Prints the answer to the text s.
fn put_answer(page: &mut Page<'_>, s: &[u8], work: &mut [f64])
    requires { page.old.at + 36876 ≤ length page.old.room.now }
    ensures same { page.new.room.ghost_name ≡ page.old.room.ghost_name }
    ensures text { Puts page.old (answer_text s.now work.old) page.new }
    ensures work { work.new ≡ answer_work s.now work.old }
    ensures hull { SheetPromise s.now work.old }
{
    match sheet_read::parse_sheet(s) {
        Some(x) => put_sheet(page, s, x, work),
        None => page.put_refusal(Refusal::NoSheet),
    }
}

// Puts the answer to the text s at the front of out, and answers how many bytes it has. A fit needs work of m² + 2m doubles for m control points.
// Where out has not room for the longest answer, 36,876 bytes, nothing is done and 0 answered.
pub fn answer(s: &[u8], out: &mut [u8], work: &mut [f64]) -> usize
    ensures answer { Answered s.now out.old work.old result out.new work.new }
    ensures hull { too_short out.old ≡ false → SheetPromise s.now work.old }
{
    if out.len() < 36876 {
        return 0;
    }
    let mut page = Page { room: out, at: 0 };
    put_answer(&mut page, s, work);
    page.at
}
