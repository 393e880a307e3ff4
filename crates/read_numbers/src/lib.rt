// Numbers: decimal, 32 bits signed, read once.
#![tactic(auto)]

ghost use Rattle.std.specs.Prelude.{◌≡◌, true, false, ◌&&◌, ◌+◌, ◌-◌, ◌≤◌, length, get_or, take, drop};
ghost use Rattle.rules.specs.Base.{all};
ghost use Rattle.rules.specs.Syntax.{sign};
ghost use Rattle.rules.specs.Text.{digit, minuses, is_number, number, decimal};
ghost use Rattle.read_bytes.specs.Marks.{wide_bytes, eight};
ghost use Rattle.read_bytes.specs.Fields.{ends_field, field_end};
ghost use Rattle.read_numbers.specs.Numbers.{most_digits, Begun, TenDigits, led, in_range};

use read_bytes::{Byte, Wide};

// NUMBERS

// "A number is decimal": the base, and powers of it.
const BASE: u64 = 10;

const HUNDRED: u64 = BASE * BASE;

const THOUSAND: u64 = BASE * HUNDRED;

const MYRIAD: u64 = BASE * THOUSAND;

// The digits of the largest number.
const MOST_DIGITS: usize = 10;

// How many numbers 32 bits hold, and the largest of "−2147483648 to 2147483647".
const WORDS: u64 = 4294967296;

const LARGEST: u64 = WORDS / 2 - 1;

// From 1 to −1, which is 2^32 − 1.
const SIGN_CHANGE: u64 = WORDS - 2;

// What eight digits 0 add to the sum of their bytes, each times its power of ten.
const EIGHT_ZEROS: u64 = Byte::ZERO as u64 * 11111111;

// How many signs stand at a place: 1 if `-` does, else 0.
#[tactic(auto, unfolding(rules::specs::Text::minuses))]
fn minuses_at(l: &[u8], at: usize) -> u8
    ensures { result ≡ minuses (get_or l.now at 0) }
{
    if read_bytes::byte_at(l, at) == Byte::MINUS {
        1
    } else {
        0
    }
}

// The number that eight digits from i on write: the sum of their bytes, each times its power of ten, less what digits 0 add.
fn eight_digits(l: &[u8], i: usize) -> u64
    requires { (i + wide_bytes ≤ length l.now) × (all digit (eight l.now i) ≡ true) }
    ensures { result ≡ decimal 0 (eight l.now i) }
{
    let a = (l[i] as u64) * THOUSAND
        + (l[i + 1] as u64) * HUNDRED
        + (l[i + 2] as u64) * BASE
        + l[i + 3] as u64;
    let b = (l[i + 4] as u64) * THOUSAND
        + (l[i + 5] as u64) * HUNDRED
        + (l[i + 6] as u64) * BASE
        + l[i + 7] as u64;
    a * MYRIAD + b - EIGHT_ZEROS
}

// The number that some digits write, and where they end.
#[derive(Clone, Copy)]
struct Digits {
    value: u64,
    end: usize,
}

// The first eight digits, if there are so many.
fn first_value(w: &[u8]) -> Digits
    requires { all digit w.now ≡ true }
    ensures { (result.end ≤ length w.now) × (decimal result.value (drop result.end w.now) ≡ decimal 0 w.now) }
{
    if w.len() < Wide::BYTES {
        return Digits { value: 0, end: 0 };
    }
    Digits {
        value: eight_digits(w, 0),
        end: Wide::BYTES,
    }
}

// The number that digits write, if it is no larger than a number can be.
fn value_of(w: &[u8]) -> u64
    requires { (all digit w.now ≡ true) × (decimal 0 w.now ≤ sign) }
    ensures { result ≡ decimal 0 w.now }
{
    let first = first_value(w);
    let mut n = first.value;
    for i in first.end..w.len() {
        n = n * BASE + (w[i] - Byte::ZERO) as u64;
    }
    n
}

// The 32 bits of a field that is known to be a number: its "digits times 1 or −1".
pub fn known_number(w: &[u8]) -> u32
    requires { is_number w.now ≡ true }
    ensures { result ≡ number w.now }
{
    let minuses = minuses_at(w, 0);
    let digits = value_of(&w[minuses as usize..]);
    let factor = 1 + (minuses as u64) * SIGN_CHANGE;
    (factor * digits % WORDS) as u32
}

// Ten bytes from a place on, or the end.
fn digits_stop(l: &[u8], at: usize) -> usize
    requires { at ≤ length l.now }
    ensures { result ≡ at + length (take most_digits (drop at l.now)) }
{
    if l.len() - at < MOST_DIGITS {
        l.len()
    } else {
        at + MOST_DIGITS
    }
}

// Are the next eight bytes digits? The last of them is asked first.
fn has_eight(l: &[u8], at: usize) -> bool
    requires { at ≤ length l.now }
    ensures { result ≡ true → (at + wide_bytes ≤ length l.now) × (all digit (eight l.now at) ≡ true) }
{
    if l.len() - at < Wide::BYTES {
        return false;
    }
    if !read_bytes::is_digit(l[at + Wide::LAST]) {
        return false;
    }
    read_bytes::digit_marks(read_bytes::word8(l, at)) == 0
}

// The first eight of the digits from a place on, or none.
fn first_digits(l: &[u8], at: usize) -> Digits
    requires { at ≤ length l.now }
    ensures { Begun l.now at result.value result.end }
{
    if has_eight(l, at) {
        return Digits {
            value: eight_digits(l, at),
            end: at + Wide::BYTES,
        };
    }
    Digits { value: 0, end: at }
}

// The digits from a place on, at most ten: a number has no more.
fn digits_from(l: &[u8], at: usize) -> Digits
    requires { at ≤ length l.now }
    ensures { TenDigits l.now at result.value result.end }
{
    let stop = digits_stop(l, at);
    let first = first_digits(l, at);
    let mut value = first.value;
    for end in first.end..stop {
        let b = l[end];
        if !read_bytes::is_digit(b) {
            return Digits { value, end };
        }
        value = value * BASE + (b - Byte::ZERO) as u64;
    }
    Digits { value, end: stop }
}

// Are there digits from a place on to an end, with no leading zero?
fn is_led(l: &[u8], from: usize, end: usize) -> bool
    requires { (from ≤ end) × (end ≤ length l.now) }
    ensures { result ≡ led (end - from) (get_or l.now from 0) }
{
    if end == from {
        return false;
    }
    if l[from] != Byte::ZERO {
        return true;
    }
    end == from + 1
}

// Is it in the range of what the digits of a number write, after so many signs?
fn in_range(value: u64, minuses: u8) -> bool
    ensures { result ≡ in_range minuses value }
{
    if value < minuses as u64 {
        return false;
    }
    value <= LARGEST + minuses as u64
}

// Do the digits that stand from a place on write a number, and end the field?
fn is_written(l: &[u8], from: usize, d: Digits, minuses: u8) -> bool
    requires { (from ≤ d.end) × (d.end ≤ length l.now) }
    ensures { result ≡ (led (d.end - from) (get_or l.now from 0) && (in_range minuses d.value && ends_field l.now d.end)) }
{
    if !is_led(l, from, d.end) {
        return false;
    }
    if !in_range(d.value, minuses) {
        return false;
    }
    read_bytes::ends_field(l, d.end)
}

// The end of the field that starts at `at`, if that field is a number.
pub fn number_end(l: &[u8], at: usize) -> Option<usize>
    requires { at ≤ length l.now }
    ensures { result ≡ field_end is_number l.now at }
{
    let minuses = minuses_at(l, at);
    let from = at + minuses as usize;
    let d = digits_from(l, from);
    if is_written(l, from, d, minuses) {
        Some(d.end)
    } else {
        None
    }
}
