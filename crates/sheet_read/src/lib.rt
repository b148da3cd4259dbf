// The sheet's grammar: what stands at a place of a text, the sections, the sheet.
#![tactic(auto)]

ghost use Rattle.std.specs.Prelude.{◌≡◌, true, false, not, ◌||◌, ◌+◌, ◌*◌, ◌^◌, ◌≤◌, ◌<◌, length, eqb, MatchOption};
ghost use Rattle.std.specs.Bool.{then_some};
ghost use Rattle.sheet_read.specs.Text.{byte_at, solid, word_stands};
ghost use Rattle.sheet_read.specs.Number.{is_hex, digit_of, number_at, digits_at, count_at, count_stands, hex_stands, double_at};
ghost use Rattle.sheet_read.specs.Grammar.{number_place, byte_after, numbers_stand, section_at, form_text, form_stands, form_of, sheet_of};
ghost use Rattle.sheet_read.specs.Line.{line_of};
ghost use Rattle.sheet_read.specs.Read.{section_view, sheet_view, line_view, said, parts_view};

use knots::Form;
use std::num;

// ---- bytes and words

// The byte at i, and 0 past the end.
fn byte(s: &[u8], i: usize) -> u8
    ensures { result ≡ byte_at s.now i }
{
    s.get(i).copied().unwrap_or(0)
}

// Where the word w ends, if it stands at `at`. No byte of it is 0, so it does not reach past the end.
fn read_word(s: &[u8], w: &[u8], at: usize) -> Option<usize>
    requires fact_1 { at ≤ 40000 }
    requires fact_2 { (1 ≤ length w.now) × (length w.now ≤ 8) }
    requires fact_3 { solid w.now ≡ true }
    ensures { result ≡ then_some (word_stands s.now w.now at) (at + length w.now) }
{
    s.get(at..)?.starts_with(w).then_some(at + w.len())
}

// ---- numbers

// Whether b is a hexadecimal digit in upper case.
fn is_hex(b: u8) -> bool
    ensures { result ≡ is_hex b }
{
    matches!(b, b'0'..=b'9' | b'A'..=b'F')
}

// What a digit stands for, and 0 for any other byte.
#[tactic(auto, unfolding(crate::specs::Number::digit_of))]
fn digit(b: u8) -> u64
    ensures value { result ≡ digit_of b }
    ensures small { result < 16 }
{
    match b {
        b'0'..=b'9' => u64::from(b - b'0'),
        b'A'..=b'F' => u64::from(b - b'A' + 10),
        _ => 0,
    }
}

// The number that n digits from `at` on write.
fn number(base: u64, s: &[u8], n: usize, at: usize) -> u64
    requires fact_1 { base ≤ 16 }
    requires fact_2 { n ≤ 16 }
    requires fact_3 { at < 2 ^ 63 }
    ensures { result ≡ number_at base s.now n at }
{
    (0..n).fold(0, |v, i| v * base + digit(byte(s, at + i)))
}

// How many decimal digits stand from `at` on, up to four.
fn digits(s: &[u8], at: usize) -> usize
    requires { at ≤ 40000 }
    ensures value { result ≡ digits_at s.now at }
    ensures few { result ≤ 4 }
{
    s.iter()
        .skip(at)
        .take(4)
        .take_while(|b| b.is_ascii_digit())
        .count()
}

// Whether d digits from `at` on begin with no needless zero.
fn leads_well(s: &[u8], d: usize, at: usize) -> bool
    ensures { result ≡ (eqb d 1 || not (eqb (byte_at s.now at) 48)) }
{
    d == 1 || byte(s, at) != b'0'
}

// A count of at most `most` and the end of its line, if they stand at `at`: the count, and where the next line begins.
fn read_count(s: &[u8], most: usize, at: usize) -> Option<(usize, usize)>
    requires { at ≤ 40000 }
    ensures { result ≡ then_some (count_stands s.now most at) (count_at s.now at, at + digits_at s.now at + 1) }
{
    let d = digits(s, at);
    let count = number(10, s, d, at) as usize;
    if d >= 1 && leads_well(s, d, at) && count <= most && byte(s, at + d) == b'\n' {
        Some((count, at + d + 1))
    } else {
        None
    }
}

// Whether n hexadecimal digits and the byte e stand at `at`.
fn has_hex(s: &[u8], n: usize, e: u8, at: usize) -> bool
    requires fact_1 { n ≤ 16 }
    requires fact_2 { at ≤ 40000 }
    ensures { result ≡ hex_stands s.now n e at }
{
    (0..n).all(|i| is_hex(byte(s, at + i))) && byte(s, at + n) == e
}

// The byte that stands after number j, where `per` numbers make a line.
fn after_number(per: usize, j: usize) -> u8
    requires { 1 ≤ per }
    ensures { result ≡ byte_after per j }
{
    if j % per == per - 1 { b'\n' } else { b' ' }
}

// Where n numbers end, if they stand from `start` on, `per` of them to a line.
fn read_numbers(s: &[u8], per: usize, n: usize, start: usize) -> Option<usize>
    requires fact_1 { 1 ≤ per }
    requires fact_2 { n ≤ 1024 }
    requires fact_3 { start ≤ 5000 }
    ensures { result ≡ then_some (numbers_stand s.now per n start) (number_place start n) }
{
    (0..n)
        .all(|j| has_hex(s, 16, after_number(per, j), start + 17 * j))
        .then_some(start + 17 * n)
}

// ---- sections

// A section: how many lines it has, where its first number stands, and where what comes after it does.
#[derive(Clone, Copy, Debug, PartialEq)]
pub struct Section {
    pub count: usize,
    pub start: usize,
    pub next: usize,
}

// The section at `at`: the word w, a count of at most `most`, and so many lines of `per` numbers.
fn read_section(s: &[u8], w: &[u8], most: usize, per: usize, at: usize) -> Option<Section>
    requires fact_1 { (1 ≤ per) × (per * most ≤ 1024) }
    requires fact_2 { at ≤ 4000 }
    requires fact_3 { (1 ≤ length w.now) × (length w.now ≤ 8) }
    requires fact_4 { solid w.now ≡ true }
    ensures { section_view result ≡ section_at s.now w.now most per at }
{
    let (count, start) = read_count(s, most, read_word(s, w, at)?)?;
    let next = read_numbers(s, per, per * count, start)?;
    Some(Section { count, start, next })
}

// ---- the sheet

// A sheet: what its points are, and its sections.
#[derive(Clone, Copy)]
pub struct Sheet {
    pub form: Form,
    pub points: Section,
    pub knots: Section,
    pub parameters: Section,
}

// The first line of a form.
fn first_line(form: Form) -> &'static [u8]
    ensures { result.now ≡ form_text form }
{
    match form {
        Form::Control => b"control\n",
        Form::Fit => b"fit\n",
    }
}

// The form that the first line says.
fn read_form(s: &[u8]) -> Option<Form>
    ensures { result ≡ then_some (form_stands s.now (form_of s.now)) (form_of s.now) }
{
    let forms = [Form::Fit, Form::Control];
    forms
        .iter()
        .copied()
        .find(|form| s.starts_with(first_line(*form)))
}

// The sheet that s is, where it has the form.
pub fn parse_sheet(s: &[u8]) -> Option<Sheet>
    ensures { MatchOption result ((sheet_of s.now).formed ≡ false) (λ x. sheet_view x ≡ sheet_of s.now) }
{
    let form = read_form(s)?;
    let points = read_section(s, b"points ", 66, 2, first_line(form).len())?;
    let knots = read_section(s, b"knots ", 70, 1, points.next)?;
    let parameters = read_section(s, b"at ", 1024, 1, knots.next)?;
    (parameters.next == s.len()).then_some(Sheet {
        form,
        points,
        knots,
        parameters,
    })
}

// What stands of a sheet in a text, whether or not that has the form: what the first line says, and each section.
#[derive(Clone, Copy)]
pub struct Parts {
    pub form: Option<Form>,
    pub points: Option<Section>,
    pub knots: Option<Section>,
    pub parameters: Option<Section>,
}

// What the points are where the first line says it, and control points else.
fn said(form: Option<Form>) -> Form
    ensures { result ≡ said form }
{
    match form {
        Some(form) => form,
        None => Form::Control,
    }
}

// Where a section ends, and the front of the text where there is none.
fn end_of(section: Option<Section>) -> usize
    ensures { result ≡ (section_view section).next }
{
    match section {
        Some(x) => x.next,
        None => 0,
    }
}

// What stands of a sheet in s: each section is looked for where the one before it ends.
pub fn read_sheet(s: &[u8]) -> Parts
    ensures sheet { parts_view s.now result ≡ sheet_of s.now }
    ensures form { result.form ≡ then_some (form_stands s.now (form_of s.now)) (form_of s.now) }
{
    let form = read_form(s);
    let points = read_section(s, b"points ", 66, 2, first_line(said(form)).len());
    let knots = read_section(s, b"knots ", 70, 1, end_of(points));
    let parameters = read_section(s, b"at ", 1024, 1, end_of(knots));
    Parts {
        form,
        points,
        knots,
        parameters,
    }
}

// ---- what the numbers are

// The double that stands at `at`, by its 16 digits; +0.0 past the end. Every NaN is the same.
pub fn double(s: &[u8], at: usize) -> f64
    ensures { result ≡ double_at s.now at }
{
    if at < s.len() {
        num::f64_from_bits_with_nan(number(16, s, 16, at))
    } else {
        0.0
    }
}

// ---- lines of recorded cases

// The number on the line of n hexadecimal digits that s begins with. There is no such line of more than 16.
pub fn read_line(s: &[u8], n: usize) -> Option<u64>
    ensures { line_view result ≡ line_of s.now n }
{
    if n <= 16 && has_hex(s, n, b'\n', 0) {
        Some(number(16, s, n, 0))
    } else {
        None
    }
}
