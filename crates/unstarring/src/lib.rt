// A text's copy in which each line `requires *` is a `requires` without atoms, and the lines of the first two stars.
#![tactic(auto)]

ghost use Rattle.std.specs.Prelude.{◌≡◌, ◌++◌, ◌+◌, ◌≤◌, ◌<◌, length, take};
ghost use Rattle.rules.specs.Limits.{most_bytes};
ghost use Rattle.rules.specs.Fill.{is_starred};
ghost use Rattle.unstarring.specs.Copies.{LineTo, with_star, LineCopied, Unstarred};

use read_bytes::Byte;
use rules::Machine;

// The copy's length so far, and the lines of the first two stars, from 1.
#[derive(Clone, Copy)]
pub struct Stars {
    pub len: usize,
    pub first: Option<usize>,
    pub second: Option<usize>,
}

// The place after the line that begins at `at`.
fn line_end(text: &[u8], at: usize) -> usize
    requires { at < length text.now }
    ensures { LineTo text.now at result }
{
    for i in at..text.len() {
        if text[i] == Byte::LINE_FEED {
            return i + 1;
        }
    }
    text.len()
}

// Is a line, its LF with it, `requires` with the one field `*`?
#[tactic(auto, unfolding(rules::specs::Fill::is_starred, rules::specs::Fill::requires_line, rules::specs::Fill::tabbed, rules::specs::Base::bytes))]
fn is_starred(line: &[u8]) -> bool
    ensures { result ≡ is_starred line.now }
{
    read_bytes::same(line, b"requires\t*\n")
}

// Bytes into the copy from `at` on; the place after them.
fn put(bytes: &[u8], copy: &mut [u8], at: usize) -> usize
    requires { at + length bytes.now ≤ length copy.old }
    ensures { (result ≡ at + length bytes.now) × (take result copy.new ≡ take at copy.old ++ bytes.now) × (length copy.new ≡ length copy.old) }
{
    let end = at + bytes.len();
    copy[at..end].copy_from_slice(bytes);
    end
}

// One star more, at this line.
#[tactic(auto, unfolding(crate::specs::Copies::with_star))]
fn with_star(s: Stars, line: usize, len: usize) -> Stars
    ensures { result ≡ with_star s line len }
{
    match s.first {
        None => Stars {
            len,
            first: Some(line),
            ..s
        },
        Some(_) => Stars {
            len,
            second: s.second.or(Some(line)),
            ..s
        },
    }
}

// One line more, the line n.
fn put_line(line: &[u8], n: usize, copy: &mut [u8], s: Stars) -> Stars
    requires { s.len + length line.now ≤ length copy.old }
    ensures { LineCopied line.now n copy.old s copy.new result }
{
    if is_starred(line) {
        let len = put(b"requires\n", copy, s.len);
        return with_star(s, n, len);
    }
    let len = put(line, copy, s.len);
    Stars { len, ..s }
}

// The text into the copy, line by line.
pub fn unstar(text: &[u8], copy: &mut [u8; Machine::TEXT_BYTES]) -> Stars
    requires { length text.now ≤ most_bytes }
    ensures { Unstarred text.now copy.new result }
{
    let mut s = Stars {
        len: 0,
        first: None,
        second: None,
    };
    let mut at = 0;
    let mut n = 0;
    while at < text.len() {
        let e = line_end(text, at);
        n += 1;
        s = put_line(&text[at..e], n, copy, s);
        at = e;
    }
    s
}
