// Names as rows of the work area: a place in the text, types, an owner and a key of one byte; the search for a name.
#![tactic(auto)]

ghost use Rattle.std.specs.Prelude.{◌≡◌, true, false, ◌||◌, eqb, ◌+◌, ◌*◌, ◌≤◌, ◌<◌, length};
ghost use Rattle.rules.specs.Base.{index};
ghost use Rattle.tables.specs.Decode.{run};
ghost use Rattle.read_bytes.specs.Marks.{byte_values};
ghost use Rattle.read_names.specs.Rows.{most_rows, span_bytes, name_in, span_at, no_span, owner_at, written_at, gives_at, takes_at, key_of, key_at, name_at, entry_at, is_entry, NextKey, any_owner, SpanFits, RowFits, put_span, put_row};

use rules::Machine;
use tables::{Area, Layout};

// A name by its place in the text.
#[derive(Clone, Copy)]
pub struct Span {
    pub start: usize,
    pub len: usize,
}

// What is declared: the owner's number, the name, the type that it gives, and the type that it takes.
#[derive(Clone, Copy)]
pub struct Row {
    pub owner: usize,
    pub name: Span,
    pub gives: Span,
    pub takes: Span,
}

// In bytes: the length of a place in the text is the last of three.
impl Span {
    const BYTES: usize = 3;

    const LEN: usize = Span::BYTES - 1;
}

// In bytes: a row has its owner first, then three places in the text, then its key.
impl Row {
    const NAME: usize = 1;

    const GIVES: usize = Row::NAME + Span::BYTES;

    const TAKES: usize = Row::GIVES + Span::BYTES;

    const KEY: usize = Row::TAKES + Span::BYTES;

    const BYTES: usize = Row::KEY + 1;
}

// The first row of each kind.
pub const CLASSES: usize = 0;

pub const FIELDS: usize = CLASSES + Machine::CLASSES;

pub const METHODS: usize = FIELDS + Layout::FIELD_NAMES;

pub const VARIABLES: usize = METHODS + Machine::METHODS;

// No class has this number: a search with it is over all rows.
pub const ANY_OWNER: usize = 255;

// The variable `result`: `this`, the parameter and the locals come before it.
pub const RESULT: usize = 2 + Machine::LOCALS;

pub const NO_VARIABLE: usize = RESULT + 1;

// NAMES AND ROWS

// The name at a place of the text.
pub fn name_in(text: &[u8], s: Span) -> &[u8]
    ensures { result.now ≡ name_in text.now s }
{
    let start = s.start;
    let len = s.len;
    if text.len() <= start {
        return &text[0..0];
    }
    if text.len() - start <= len {
        return &text[start..];
    }
    let end = start + len;
    &text[start..end]
}

pub fn no_span() -> Span
    ensures { result ≡ no_span }
{
    Span { start: 0, len: 0 }
}

fn span_at(work: &Area, at: usize) -> Span
    requires { at + span_bytes ≤ length work.now }
    ensures { (result ≡ span_at work.now at) × SpanFits result }
{
    let start = tables::half_at(work, at);
    let len = tables::byte_at(work, at + Span::LEN);
    Span { start, len }
}

pub fn owner_at(work: &Area, i: usize) -> usize
    requires { i < most_rows }
    ensures { result ≡ owner_at work.now i }
{
    tables::byte_at(work, Layout::NAMES + i * Row::BYTES)
}

fn written_at(work: &Area, i: usize) -> Span
    requires { i < most_rows }
    ensures { (result ≡ written_at work.now i) × SpanFits result }
{
    span_at(work, Layout::NAMES + i * Row::BYTES + Row::NAME)
}

fn key_at(work: &Area, i: usize) -> usize
    requires { i < most_rows }
    ensures { result ≡ key_at work.now i }
{
    tables::byte_at(work, Layout::NAMES + i * Row::BYTES + Row::KEY)
}

// A key is made of the last two bytes of a name: the one before the last counts so often, and there are so many keys.
const KEY_FACTOR: usize = 10;

const KEYS: usize = 256;

// The key of a name.
#[tactic(auto, unfolding(crate::specs::Rows::key_of))]
fn key(x: &[u8]) -> usize
    ensures { (result ≡ key_of x.now) × (result < byte_values) }
{
    let n = x.len();
    if n < 2 {
        return read_bytes::byte_at(x, 0) as usize;
    }
    (x[n - 1] as usize + KEY_FACTOR * (x[n - 2] as usize)) % KEYS
}

// The name of the row i, which fits a row.
pub fn name_at(text: &[u8], work: &Area, i: usize) -> Span
    requires { i < most_rows }
    ensures { (result ≡ name_at text.now work.now i) × SpanFits result }
{
    let s = written_at(work, i);
    if key_at(work, i) == key(name_in(text, s)) {
        return s;
    }
    no_span()
}

// The type that it gives.
pub fn gives_at(work: &Area, i: usize) -> Span
    requires { i < most_rows }
    ensures { result ≡ gives_at work.now i }
{
    span_at(work, Layout::NAMES + i * Row::BYTES + Row::GIVES)
}

// The type that it takes.
pub fn takes_at(work: &Area, i: usize) -> Span
    requires { i < most_rows }
    ensures { result ≡ takes_at work.now i }
{
    span_at(work, Layout::NAMES + i * Row::BYTES + Row::TAKES)
}

// STORES

#[tactic(auto, unfolding(crate::specs::Rows::put_span))]
fn put_span(work: &mut Area, at: usize, s: Span)
    requires { (at + span_bytes ≤ length work.old) × SpanFits s }
    ensures { work.new ≡ put_span work.old at s }
{
    tables::put_half(work, at, s.start);
    tables::put_byte(work, at + Span::LEN, s.len);
}

// Writes the row i.
#[tactic(auto, unfolding(crate::specs::Rows::put_row))]
pub fn put_row(text: &[u8], work: &mut Area, i: usize, r: Row)
    requires { (i < most_rows) × RowFits r }
    ensures { work.new ≡ put_row text.now work.old i r }
{
    let at = Layout::NAMES + i * Row::BYTES;
    let name = r.name;
    let gives = r.gives;
    let takes = r.takes;
    tables::put_byte(work, at, r.owner);
    put_span(work, at + Row::NAME, name);
    put_span(work, at + Row::GIVES, gives);
    put_span(work, at + Row::TAKES, takes);
    tables::put_byte(work, at + Row::KEY, key(name_in(text, name)));
}

// THE SEARCH

fn is_owned(work: &Area, i: usize, owner: usize) -> bool
    requires { i < most_rows }
    ensures { result ≡ (eqb owner any_owner || eqb (owner_at work.now i) owner) }
{
    if owner == ANY_OWNER {
        return true;
    }
    owner_at(work, i) == owner
}

// Is the row i named x, and of this owner?
#[tactic(auto, unfolding(crate::specs::Rows::is_entry, crate::specs::Rows::entry_at))]
fn is_row(text: &[u8], work: &Area, i: usize, owner: usize, x: &[u8]) -> bool
    requires { i < most_rows }
    ensures { result ≡ is_entry owner x.now (entry_at text.now work.now i) }
{
    if !is_owned(work, i, owner) {
        return false;
    }
    let s = name_at(text, work, i);
    read_bytes::same(name_in(text, s), x)
}

// Each row is compared.
fn find_each(text: &[u8], work: &Area, first: usize, count: usize, owner: usize, x: &[u8]) -> usize
    requires { first + count ≤ most_rows }
    ensures { (result ≡ index (is_entry owner x.now) (run (entry_at text.now work.now) first count)) × (result ≤ count) }
{
    for i in 0..count {
        if is_row(text, work, first + i, owner, x) {
            return i;
        }
    }
    count
}

// From the row `from` of a range on, the first that has this key.
fn next_key(work: &Area, first: usize, count: usize, from: usize, k: usize) -> Option<usize>
    requires { (first + count ≤ most_rows) × (from ≤ count) }
    ensures { NextKey work.now first count from k result }
{
    for i in from..count {
        if key_at(work, first + i) == k {
            return Some(i);
        }
    }
    None
}

// Is the row i, which has the key of x, named x, and of this owner?
#[tactic(auto, unfolding(crate::specs::Rows::is_entry, crate::specs::Rows::entry_at))]
fn is_keyed_row(text: &[u8], work: &Area, i: usize, owner: usize, x: &[u8]) -> bool
    requires { (i < most_rows) × (0 < length x.now) × (key_at work.now i ≡ key_of x.now) }
    ensures { result ≡ is_entry owner x.now (entry_at text.now work.now i) }
{
    if !is_owned(work, i, owner) {
        return false;
    }
    let s = written_at(work, i);
    read_bytes::same(name_in(text, s), x)
}

// Rows that have the key of x are compared. x is not empty, so that no row without a name is named x.
fn find_keyed(text: &[u8], work: &Area, first: usize, count: usize, owner: usize, x: &[u8]) -> usize
    requires { (first + count ≤ most_rows) × (0 < length x.now) }
    ensures { (result ≡ index (is_entry owner x.now) (run (entry_at text.now work.now) first count)) × (result ≤ count) }
{
    let k = key(x);
    let mut from = 0;
    while let Some(i) = next_key(work, first, count, from, k) {
        if is_keyed_row(text, work, first + i, owner, x) {
            return i;
        }
        from = i + 1;
    }
    count
}

// Where in a range of rows the first that is named x, and of this owner, stands; the range's length if there is none, and no Option: the
// contract is the rules' `index`.
pub fn find(text: &[u8], work: &Area, first: usize, count: usize, owner: usize, x: &[u8]) -> usize
    requires { first + count ≤ most_rows }
    ensures { (result ≡ index (is_entry owner x.now) (run (entry_at text.now work.now) first count)) × (result ≤ count) }
{
    if x.len() == 0 {
        return find_each(text, work, first, count, owner, x);
    }
    find_keyed(text, work, first, count, owner, x)
}
