// What the program prints, written to a lent buffer.
#![tactic(auto)]

ghost use Rattle.std.specs.Prelude.{◌≡◌, true, [], ◌∷◌, ◌+◌, ◌≤◌, ◌<◌, length, get_or, drop};
ghost use Rattle.rules.specs.Limits.{work_bytes, results_bytes, values_shown};
ghost use Rattle.rules.specs.Text.{tab, is_name};
ghost use Rattle.rules.specs.Printed.{digits_before, digits, signed, printed_variables, printed};
ghost use Rattle.read_fields.specs.Cuts.{more};
ghost use Rattle.read_declarations.specs.Texts.{TextTaken, lines_of, line_at, FormedAt};
ghost use Rattle.printer.specs.Writes.{Writes, Prints};
ghost use Rattle.printer.specs.Answers.{out_bytes, number_bytes, signed_bytes, check_bytes, run_bytes, variable_bytes, low_digit, is_unread, check_line, run_line, variable_line, values_in, printed_answers, ReadUnless};
ghost use Rattle.printer.specs.Variables.{locals, most_line, most_lines, ShownRoom, ShowsLocal, Goes};

use read_bytes::Set;
use rules::{Kind, Machine, Number};
use tables::Bytes;

// BYTES: each function writes from a place on and returns the place after

pub fn put(out: &mut [u8], at: usize, b: u8) -> usize
    requires { at < length out.old }
    ensures { Writes out.old at (b ∷ []) out.new result }
{
    out[at] = b;
    at + 1
}

pub fn put_word(out: &mut [u8], at: usize, w: &[u8]) -> usize
    requires { at + length w.now ≤ length out.old }
    ensures { Writes out.old at w.now out.new result }
{
    let end = at + w.len();
    out[at..end].copy_from_slice(w);
    end
}

// NUMBERS

const BASE: u32 = 10;

// a number of 32 bits has a digit and at most so many more
const MORE_DIGITS: usize = 9;

// the bits of the least number with a sign, and of -1
const LEAST: u32 = 2147483648;

const MINUS_ONE: u32 = 4294967295;

fn low_digit(n: u32) -> u8
    ensures { result ≡ low_digit n }
{
    (n % BASE) as u8 + b'0'
}

// The digits of n, at most k + 1 of them. By hand: `write!` needs a writer over the buffer, and at each use a proof that it does not fail.
fn put_digits(out: &mut [u8], at: usize, k: usize, n: u32) -> usize
    requires { at + k < length out.old }
    ensures { Writes out.old at (digits_before k n []) out.new result }
{
    let low = low_digit(n);
    if k == 0 {
        return put(out, at, low);
    }
    if n < BASE {
        return put(out, at, low);
    }
    let e = put_digits(out, at, k - 1, n / BASE);
    put(out, e, low)
}

fn put_number(out: &mut [u8], at: usize, n: u32) -> usize
    requires { at + number_bytes ≤ length out.old }
    ensures { Writes out.old at (digits n) out.new result }
{
    put_digits(out, at, MORE_DIGITS, n)
}

// The 32 bits of v as a number with its sign.
fn put_signed(out: &mut [u8], at: usize, v: u32) -> usize
    requires { at + signed_bytes ≤ length out.old }
    ensures { Writes out.old at (signed v) out.new result }
{
    if v < LEAST {
        return put_number(out, at, v);
    }
    let e = put(out, at, b'-');
    put_number(out, e, MINUS_ONE - v + 1)
}

// LINES

// A tab and a number.
fn put_tab_number(out: &mut [u8], at: usize, n: u32) -> usize
    requires { at + 1 + number_bytes ≤ length out.old }
    ensures { Writes out.old at (tab ∷ digits n) out.new result }
{
    let e = put(out, at, b'\t');
    put_number(out, e, n)
}

// `check` number line
fn put_check(out: &mut [u8], checked: u32) -> usize
    requires { check_bytes ≤ length out.old }
    ensures { Writes out.old 0 (check_line checked) out.new result }
{
    let a = put_word(out, 0, b"check");
    let b = put_tab_number(out, a, checked / Number::FACTOR);
    let c = put_tab_number(out, b, checked % Number::FACTOR);
    put(out, c, b'\n')
}

// `run` number line steps
fn put_run(out: &mut [u8], at: usize, ran: u32, steps: u32) -> usize
    requires { at + run_bytes ≤ length out.old }
    ensures { Writes out.old at (run_line ran steps) out.new result }
{
    let a = put_word(out, at, b"run");
    let b = put_tab_number(out, a, ran / Number::FACTOR);
    let c = put_tab_number(out, b, ran % Number::FACTOR);
    let d = put_tab_number(out, c, steps);
    put(out, d, b'\n')
}

// `var` name value
fn put_variable(out: &mut [u8], at: usize, name: &[u8], v: u32) -> usize
    requires { at + length name.now + variable_bytes ≤ length out.old }
    ensures { Writes out.old at (variable_line name.now v) out.new result }
{
    let a = put_word(out, at, b"var\t");
    let b = put_word(out, a, name);
    let c = put(out, b, b'\t');
    let d = put_signed(out, c, v);
    put(out, d, b'\n')
}

// VARIABLES

// The locals of a block that are written: how many, and the place after them.
#[derive(Clone, Copy)]
pub struct Shown {
    pub count: usize,
    pub end: usize,
}

// The local of a line `var` whose word ends at r. The results are a slice here and below: `print`, which programs call, takes one for C's `trial`.
fn show_local(text: &[u8], out: &mut [u8], r: usize, results: &[u8], s: Shown) -> Shown
    requires { (r ≤ length text.now) × (length results.now ≡ results_bytes) × (s.count < values_shown) × (s.end + most_line ≤ length out.old) × (is_name (get_or (more (drop r text.now)) 1 []) ≡ true) }
    ensures { ShowsLocal results.now (get_or (more (drop r text.now)) 1 []) out.old s out.new result }
{
    let class = read_declarations::span_after(text, r);
    let name = read_declarations::span_after(text, class.start + class.len);
    let from = name.start;
    let to = from + name.len;
    let count = s.count;
    let v = tables::word_at(results, Bytes::WORD + count * Bytes::WORD);
    let end = put_variable(out, s.end, &text[from..to], v);
    Shown {
        count: count + 1,
        end,
    }
}

// The line that begins at a place: a block begins, a local is written, or nothing.
fn show_line(
    text: &[u8],
    out: &mut [u8],
    at: usize,
    first: usize,
    results: &[u8],
    s: Shown,
) -> Shown
    requires { (at ≤ length text.now) × (length results.now ≡ results_bytes) × FormedAt text.now at × ShownRoom (line_at text.now at).kind s out.old }
    ensures { Goes first results.now (line_at text.now at) out.old s out.new result }
{
    let w = read_declarations::word_at(text, at);
    let r = w.end;
    match Kind::numbered(w.kind) {
        Kind::Method | Kind::Main => Shown {
            count: 0,
            end: first,
        },
        Kind::Var => show_local(text, out, r, results, s),
        _ => s,
    }
}

// The locals of main, from a place on. Those of a method are written over.
fn show_variables(text: &[u8], out: &mut [u8], first: usize, results: &[u8]) -> usize
    requires { (first + most_lines ≤ length out.old) × (length results.now ≡ results_bytes) × TextTaken text.now }
    ensures { Writes out.old first (printed_variables (locals [] (lines_of text.now)) (values_in results.now)) out.new result }
{
    let mut s = Shown {
        count: 0,
        end: first,
    };
    let mut at = 0;
    while at < text.len() {
        let end = read_bytes::find(text, at, Set::LineEnd);
        s = show_line(text, out, at, first, results, s);
        at = end + 1;
    }
    s.end
}

// ALL

// all that is printed fits
pub const OUT_BYTES: usize = 512;

// 1 to 9: the text is not read.
fn is_unread(n: u32) -> bool
    ensures { result ≡ is_unread n }
{
    if n < Number::WRONG_LENGTH {
        return false;
    }
    n <= Number::WRONG_TARGET
}

// What the program prints for a text, by what check and trial return and what trial leaves in results; how many bytes.
fn put_answers(text: &[u8], out: &mut [u8], checked: u32, ran: u32, results: &[u8]) -> usize
    requires { (length out.old ≡ out_bytes) × (length results.now ≡ results_bytes) × ReadUnless text.now checked }
    ensures { Prints (printed_answers text.now checked ran results.now) out.new result }
{
    let a = put_check(out, checked);
    if is_unread(checked / Number::FACTOR) {
        return a;
    }
    let b = put_run(out, a, ran, tables::word_at(results, 0));
    show_variables(text, out, b, results)
}

// What the program of document 01 prints for the text; how many bytes. Programs call it, with slices, so their lengths stay in the clause.
pub fn print(text: &[u8], work: &mut [u8], results: &mut [u8], out: &mut [u8]) -> usize
    requires { (length work.old ≡ work_bytes) × (length results.old ≡ results_bytes) × (length out.old ≡ out_bytes) }
    ensures { Prints (printed text.now) out.new result }
{
    let checked = station::check(text, work);
    let ran = station::trial(text, work, Machine::PROGRAM_STEPS as u32, results);
    put_answers(text, out, checked, ran, results)
}
