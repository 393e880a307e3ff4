// The program of W14: prints each accepted main of 0 to 3 statements, one a line. Each is tried by `check` on its text.
#![tactic(auto)]

ghost use Rattle.std.specs.Prelude.{◌≡◌, [], ◌∷◌, ◌+◌, ◌≤◌, ◌<◌, length};
ghost use Rattle.printer.specs.Writes.{Writes, Prints};
ghost use Rattle.small_list.specs.Small.{most_statements, statement, opening, body, text_of, accepted, line_of, printed};
ghost use Rattle.small.specs.Listing.{most_line, most_body, IsPlace, places_in, Known, Adds, after, room, Lists};

use rules::Machine;
use std::io;
use std::io::Print;

// A main has at most so many statements.
const MOST_STATEMENTS: usize = 3;

// The longest text fits.
const TEXT_BYTES: usize = 95;

// The lines of all mains fit, were all of them accepted.
const OUT_BYTES: usize = 586;

// The place of each statement, and how many there are: numbers, since the list prints them as digits.
#[derive(Clone, Copy)]
pub struct Place {}

impl Place {
    const NEW: u8 = 1;

    const LET_PATH: u8 = 2;

    const LET_NUMBER: u8 = 3;

    const SET: u8 = 4;

    const COUNT: u8 = 5;
}

// The places of a main's statements, as digits: a buffer and how many there are, since nothing is on a heap.
#[derive(Clone, Copy)]
pub struct Places {
    pub digits: [u8; MOST_STATEMENTS],
    pub count: usize,
}

// MAINS

// The main without statements.
fn none() -> Places
    ensures { (places_in result ≡ []) × Known result }
{
    Places {
        digits: [0; MOST_STATEMENTS],
        count: 0,
    }
}

// One statement more.
fn with_place(mut m: Places, place: u8) -> Places
    requires { Known m × (m.count < most_statements) × IsPlace place }
    ensures { Adds m place result }
{
    m.digits[m.count] = b'0' + place;
    m.count += 1;
    m
}

// WRITING: each function writes from a place of the area on and returns the place after

fn put_opening(text: &mut [u8; TEXT_BYTES]) -> usize
    ensures { Writes text.old 0 opening text.new result }
{
    printer::put_word(
        text,
        0,
        b"class\tS\nfield\tint\tn\nmain\nvar\tS\ts\nvar\tint\ta\n",
    )
}

// The statement of this place, as a line.
// A match and no array of texts: they are slices of several lengths, and the clause has each (`statement`).
fn put_statement(text: &mut [u8], at: usize, place: u8) -> usize
    requires { IsPlace place × (at + most_line ≤ length text.old) }
    ensures { Writes text.old at (statement place) text.new result }
{
    match place {
        Place::NEW => printer::put_word(text, at, b"new\ts\tS\n"),
        Place::LET_PATH => printer::put_word(text, at, b"let\ta\ts.n\n"),
        Place::LET_NUMBER => printer::put_word(text, at, b"let\ta\t7\n"),
        Place::SET => printer::put_word(text, at, b"set\ts\tn\ta\n"),
        _ => printer::put_word(text, at, b"release\tacc\ts\tn\n"),
    }
}

fn put_body(text: &mut [u8], at: usize, m: Places) -> usize
    requires { Known m × (at + most_body ≤ length text.old) }
    ensures { Writes text.old at (body (places_in m)) text.new result }
{
    let mut e = at;
    for &d in &m.digits[..m.count] {
        e = put_statement(text, e, d - b'0');
    }
    e
}

// The whole text of a main.
fn put_text(text: &mut [u8; TEXT_BYTES], m: Places) -> usize
    requires { Known m }
    ensures { Prints (text_of (places_in m)) text.new result }
{
    let a = put_opening(text);
    let b = put_body(text, a, m);
    printer::put_word(text, b, b"end\n")
}

// The line of a main.
fn put_line(out: &mut [u8], at: usize, m: Places) -> usize
    requires { Known m × (at + length (line_of (places_in m)) ≤ length out.old) }
    ensures { Writes out.old at (line_of (places_in m)) out.new result }
{
    let e = printer::put_word(out, at, &m.digits[..m.count]);
    printer::put(out, e, b'\n')
}

// THE LIST

// Does check accept its text?
fn is_accepted(m: Places) -> bool
    requires { Known m }
    ensures { result ≡ accepted (places_in m) }
{
    let mut text = [0u8; TEXT_BYTES];
    let mut work = [0u8; Machine::WORK_BYTES];
    let end = put_text(&mut text, m);
    let checked = station::check(&text[..end], &mut work);
    checked == 0
}

// The line of a main, if it is accepted.
fn put_accepted(out: &mut [u8], at: usize, m: Places) -> usize
    requires { Known m × (at + room (places_in m ∷ []) ≤ length out.old) }
    ensures { Lists (places_in m ∷ []) out.old at out.new result }
{
    if !is_accepted(m) {
        return at;
    }
    put_line(out, at, m)
}

// The lines of those that begin as m and have so many statements more.
fn put_mains(out: &mut [u8], at: usize, left: usize, m: Places) -> usize
    requires { Known m × (m.count + left ≤ most_statements) × (at + room (after (places_in m) left) ≤ length out.old) }
    ensures { Lists (after (places_in m) left) out.old at out.new result }
{
    if left == 0 {
        return put_accepted(out, at, m);
    }
    let mut e = at;
    for place in 1..=Place::COUNT {
        e = put_mains(out, e, left - 1, with_place(m, place));
    }
    e
}

// The whole list; how many bytes.
fn put_small(out: &mut [u8; OUT_BYTES]) -> usize
    ensures { Prints printed out.new result }
{
    let m = none();
    let mut e = 0;
    for count in 0..=MOST_STATEMENTS {
        e = put_mains(out, e, count, m);
    }
    e
}

fn main(rt: HostRuntime) -> io::Result<()> {
    let mut out = [0u8; OUT_BYTES];
    let n = put_small(&mut out);
    rt.write_all(&out[..n])
}
