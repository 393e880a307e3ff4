// Names and expressions as fields of a line.
#![tactic(auto)]

ghost use Rattle.std.specs.Prelude.{◌≡◌, true, false, ◌||◌, eqb, ◌+◌, ◌-◌, ◌≤◌, length, drop};
ghost use Rattle.rules.specs.Text.{minus, digit, is_name, numeral, is_expr};
ghost use Rattle.read_bytes.specs.Sets.{FirstInSet};
ghost use Rattle.read_bytes.specs.Fields.{field_end};
ghost use Rattle.read_tokens.specs.Names.{begins_name};
ghost use Rattle.read_tokens.specs.Expressions.{Reads};

use read_bytes::{Byte, Set, Wide};
use rules::Machine;

// NAMES

// Are n bytes few enough for a name, and is the first a letter?
#[tactic(auto, unfolding(crate::specs::Names::begins_name))]
fn begins_name(w: &[u8], n: usize) -> bool
    ensures { result ≡ begins_name n w.now }
{
    if Machine::NAME_BYTES < n {
        return false;
    }
    read_bytes::is_letter(read_bytes::byte_at(w, 0))
}

pub fn is_name(w: &[u8]) -> bool
    ensures { result ≡ is_name w.now }
{
    if begins_name(w, w.len()) {
        return read_bytes::find(w, 0, Set::NotLetterOrDigit) == w.len();
    }
    false
}

// Where the letters and digits from a place on end. As `read_bytes::find`, but a mark of `name_marks` is not tested again.
// A `while`: it goes on by whole words.
fn name_stop(l: &[u8], at: usize) -> usize
    requires { at ≤ length l.now }
    ensures { FirstInSet l.now at Set.NotLetterOrDigit result }
{
    let mut stop = at;
    while Wide::BYTES <= l.len() - stop {
        let z = read_bytes::name_marks(read_bytes::word8(l, stop));
        if z != 0 {
            return stop + (u64::trailing_zeros(z) / Byte::BITS) as usize;
        }
        stop += Wide::BYTES;
    }
    read_bytes::find_from(l, stop, Set::NotLetterOrDigit)
}

// The end of the field that starts at `at`, if that field is a name. One scan finds both.
pub fn name_end(l: &[u8], at: usize) -> Option<usize>
    requires { at ≤ length l.now }
    ensures { result ≡ field_end is_name l.now at }
{
    if !read_bytes::is_letter(read_bytes::byte_at(l, at)) {
        return None;
    }
    let e = name_stop(l, at);
    if Machine::NAME_BYTES < e - at {
        return None;
    }
    if read_bytes::ends_field(l, e) {
        Some(e)
    } else {
        None
    }
}

// EXPRESSIONS

// An expression of a field: a variable is the whole field, a path has its full stop at a place of it.
#[derive(Clone, Copy)]
pub enum Expr {
    Num(u32),
    Null,
    Var,
    Path(usize),
}

// Does a number begin with it?
fn begins_number(b: u8) -> bool
    ensures { result ≡ (digit b || eqb b minus) }
{
    if read_bytes::is_digit(b) {
        return true;
    }
    b == Byte::MINUS
}

// Does it begin as a number?
#[tactic(auto, unfolding(rules::specs::Text::numeral, rules::specs::Text::is_negative))]
pub fn is_numeral(w: &[u8]) -> bool
    ensures { result ≡ numeral w.now }
{
    begins_number(read_bytes::byte_at(w, 0))
}

// The expression of a field that is known to be one.
pub fn known_expr(w: &[u8]) -> Expr
    requires { is_expr w.now ≡ true }
    ensures { Reads w.now result }
{
    if is_numeral(w) {
        let n = read_numbers::known_number(w);
        return Expr::Num(n);
    }
    let d = read_bytes::find(w, 0, Set::FullStop);
    if d < w.len() {
        return Expr::Path(d);
    }
    if read_words::is_null(w) {
        return Expr::Null;
    }
    Expr::Var
}

// The end of the field that starts at `at`, if that field is a variable, `null` or a path. Its first byte that is no letter or digit stands
// at d.
fn path_end(l: &[u8], at: usize, d: usize) -> Option<usize>
    requires { (at ≤ length l.now) × FirstInSet l.now at Set.NotLetterOrDigit d × (numeral (drop at l.now) ≡ false) }
    ensures { result ≡ field_end is_expr l.now at }
{
    let n = d - at;
    if !begins_name(&l[at..], n) {
        return None;
    }
    if read_bytes::ends_field(l, d) {
        return Some(d);
    }
    if l[d] != Byte::FULL_STOP {
        return None;
    }
    let f = d + 1;
    let e = read_bytes::find(l, f, Set::FieldEnd);
    if is_name(&l[f..e]) { Some(e) } else { None }
}

// The end of the field that starts at `at`, if that field is an expression.
pub fn expr_end(l: &[u8], at: usize) -> Option<usize>
    requires { at ≤ length l.now }
    ensures { result ≡ field_end is_expr l.now at }
{
    if begins_number(read_bytes::byte_at(l, at)) {
        return read_numbers::number_end(l, at);
    }
    let d = read_bytes::find(l, at, Set::NotLetterOrDigit);
    path_end(l, at, d)
}
