// Bytes of the text: sets of bytes, the search for the first byte of a set, and comparing. Eight bytes at a time: `marks`.
#![tactic(auto)]

mod marks;

ghost use Rattle.std.specs.Prelude.{◌≡◌, true, false, ◌+◌, ◌-◌, ◌*◌, ◌≤◌, length, get_or, drop};
ghost use Rattle.rules.specs.Base.{between, eq_name};
ghost use Rattle.rules.specs.Text.{letter, digit, letter_or_digit, up_to};
ghost use Rattle.read_bytes.specs.Sets.{in_set, FirstInSet};
ghost use Rattle.read_bytes.specs.Marks.{wide_bytes};
ghost use Rattle.read_bytes.specs.Fields.{ends_field};

pub use marks::{Wide, digit_marks, name_marks, word8};

// BYTES

// The bytes of a text, by name: "tab, LF, 33 to 126".
#[derive(Clone, Copy)]
pub struct Byte {}

impl Byte {
    pub const TAB: u8 = 9;

    pub const LINE_FEED: u8 = 10;

    pub const FIRST_GRAPHIC: u8 = 33;

    pub const LAST_GRAPHIC: u8 = 126;

    pub const MINUS: u8 = b'-';

    pub const FULL_STOP: u8 = b'.';

    pub const ZERO: u8 = b'0';

    pub const NINE: u8 = b'9';

    const UPPER_A: u8 = b'A';

    const UPPER_Z: u8 = b'Z';

    pub const LOWER_A: u8 = b'a';

    pub const LOWER_Z: u8 = b'z';

    pub const BITS: u32 = 8;

    // How many there are.
    pub const VALUES: u64 = 256;
}

#[tactic(auto, unfolding(rules::specs::Base::opened))]
fn between(b: u8, a: u8, z: u8) -> bool
    ensures { result ≡ between a z b }
{
    (a..=z).contains(&b)
}

#[tactic(auto, unfolding(rules::specs::Text::opened, rules::specs::Base::opened))]
pub fn is_digit(b: u8) -> bool
    ensures { result ≡ digit b }
{
    between(b, Byte::ZERO, Byte::NINE)
}

pub fn is_letter(b: u8) -> bool
    ensures { result ≡ letter b }
{
    if Byte::LOWER_A <= b {
        return b <= Byte::LOWER_Z;
    }
    between(b, Byte::UPPER_A, Byte::UPPER_Z)
}

pub fn is_letter_or_digit(b: u8) -> bool
    ensures { result ≡ letter_or_digit b }
{
    if Byte::LOWER_A <= b {
        return b <= Byte::LOWER_Z;
    }
    if Byte::UPPER_A <= b {
        return b <= Byte::UPPER_Z;
    }
    is_digit(b)
}

// What a search stops at. An enum and no closure: the contracts name a set by it (`FirstInSet`), and a search by words has other marks for each.
#[derive(Clone, Copy)]
pub enum Set {
    // LF, or a byte that is not allowed
    LineEnd,
    // tab or LF
    FieldEnd,
    FullStop,
    NotLetterOrDigit,
}

pub fn in_set(b: u8, set: Set) -> bool
    ensures { result ≡ in_set set b }
{
    match set {
        Set::LineEnd => {
            if b < Byte::FIRST_GRAPHIC {
                return b != Byte::TAB;
            }
            Byte::LAST_GRAPHIC < b
        }
        Set::FieldEnd => {
            if Byte::LINE_FEED < b {
                return false;
            }
            Byte::TAB <= b
        }
        Set::FullStop => b == Byte::FULL_STOP,
        Set::NotLetterOrDigit => !is_letter_or_digit(b),
    }
}

// SEARCHES

pub fn find_from(l: &[u8], at: usize, set: Set) -> usize
    requires { at ≤ length l.now }
    ensures { FirstInSet l.now at set result }
{
    for i in at..l.len() {
        if in_set(l[i], set) {
            return i;
        }
    }
    l.len()
}

// A place from `at` on, up to which no byte is in the set: the first mark in whole words, or their end. A `while`: it goes on by whole words.
fn skip_words(l: &[u8], at: usize, set: Set) -> usize
    requires { at ≤ length l.now }
    ensures { (at ≤ result) × (result ≤ length l.now) × (result + up_to (in_set set) (drop result l.now) ≡ at + up_to (in_set set) (drop at l.now)) }
{
    let mut i = at;
    while Wide::BYTES <= l.len() - i {
        let z = marks::marks(word8(l, i), set);
        if z != 0 {
            return i + (u64::trailing_zeros(z) / Byte::BITS) as usize;
        }
        i += Wide::BYTES;
    }
    i
}

fn find_wide(l: &[u8], at: usize, set: Set) -> usize
    requires { at ≤ length l.now }
    ensures { FirstInSet l.now at set result }
{
    let i = skip_words(l, at, set);
    find_from(l, i, set)
}

// The first place from `at` on whose byte is in the set, or the end. Lines, fields and names are searched in steps of eight bytes.
// A match: a set that has no marks by words is searched byte by byte.
pub fn find(l: &[u8], at: usize, set: Set) -> usize
    requires { at ≤ length l.now }
    ensures { FirstInSet l.now at set result }
{
    match set {
        Set::LineEnd => find_wide(l, at, Set::LineEnd),
        Set::FieldEnd => find_wide(l, at, Set::FieldEnd),
        Set::NotLetterOrDigit => find_wide(l, at, Set::NotLetterOrDigit),
        _ => find_from(l, at, set),
    }
}

// FIELDS

// Byte i of a field, or 0 past its end.
pub fn byte_at(w: &[u8], i: usize) -> u8
    ensures { result ≡ get_or w.now i 0 }
{
    if i < w.len() { w[i] } else { 0 }
}

// From the last byte to the first: names of one length differ more often in their last bytes.
fn same_bytes(a: &[u8], b: &[u8]) -> bool
    requires { length a.now ≡ length b.now }
    ensures { result ≡ eq_name a.now b.now }
{
    for i in (0..a.len()).rev() {
        if a[i] != b[i] {
            return false;
        }
    }
    true
}

// Names of 8 to 16 bytes: the last eight bytes, then the first eight.
fn same_wide(a: &[u8], b: &[u8]) -> bool
    requires { (length a.now ≡ length b.now) × (wide_bytes ≤ length a.now) × (length a.now ≤ 2 * wide_bytes) }
    ensures { result ≡ eq_name a.now b.now }
{
    let i = a.len() - Wide::BYTES;
    if word8(a, i) != word8(b, i) {
        return false;
    }
    word8(a, 0) == word8(b, 0)
}

pub fn same(a: &[u8], b: &[u8]) -> bool
    ensures { result ≡ eq_name a.now b.now }
{
    let n = a.len();
    if n != b.len() {
        return false;
    }
    if n < Wide::BYTES {
        return same_bytes(a, b);
    }
    if Wide::TWICE < n {
        return same_bytes(a, b);
    }
    same_wide(a, b)
}

// Does a field end at e: at the end, or at tab or LF?
pub fn ends_field(l: &[u8], e: usize) -> bool
    ensures { result ≡ ends_field l.now e }
{
    if e < l.len() {
        return in_set(l[e], Set::FieldEnd);
    }
    true
}
