// Pass 1: lines cut, each tested for form, place and limits (3, 4, 5, 8) and noted in a table of lines.
#![tactic(auto)]

ghost use Rattle.std.specs.Prelude.{◌≡◌, true, ◌+◌, ◌*◌, ◌≤◌, ◌<◌, length};
ghost use Rattle.rules.specs.Limits.{most_bytes};
ghost use Rattle.rules.specs.Grammar.{last_kind};
ghost use Rattle.rules.specs.Numbered.{number};
ghost use Rattle.read_bytes.specs.Marks.{half_values};
ghost use Rattle.read_grammar.specs.Coded.{within_limits};
ghost use Rattle.read_scan.specs.Scans.{answer_of, next_place, PlacesLine, PlacesLineTo, Unformed, RefusesLine, ScansLine, verdict_of, scan_text};
ghost use Rattle.read_fields.specs.Spans.{FieldsRead, formed_as};
ghost use Rattle.read_scan.specs.Table.{FirstWord, least_line, most_lines, word_in, put_line, NotesLine, TableOf};

use read_bytes::{Byte, Set};
use read_grammar::{Place, Stage};
use rules::Kind;
use tables::{Area, Layout};

// The word that a line begins with: the number of its kind, or 0, and the word's end.
#[derive(Clone, Copy)]
pub struct Word {
    pub kind: u8,
    pub end: usize,
}

// The word of the line that begins at a place.
pub fn first_word(t: &[u8], at: usize) -> Word
    requires { at ≤ length t.now }
    ensures { FirstWord t.now at result }
{
    let end = read_bytes::find(t, at, Set::FieldEnd);
    let kind = read_words::kind_of(&t[at..end]);
    Word { kind, end }
}

// Where the fields of a line with this word end; a word of kind 0 begins none.
fn line_fields(t: &[u8], w: Word) -> Option<usize>
    requires { (w.end ≤ length t.now) × (w.kind ≤ last_kind) }
    ensures { FieldsRead (formed_as w.kind) t.now w.end result }
{
    if w.kind == 0 {
        return None;
    }
    read_fields::fields_end(t, w.end, Kind::numbered(w.kind))
}

// Why a text is refused in pass 1.
#[derive(Clone, Copy)]
pub enum Refusal {
    BadByte,
    Malformed,
    LimitPassed,
    TextEnds,
}

// 4, "line out of place", is tested before 5, "a limit of the text passed".
fn next_place(in_place: bool, within: bool, next: Place) -> Result<Place, Refusal>
    ensures { answer_of result ≡ next_place in_place within next }
{
    if in_place {
        if within {
            return Ok(next);
        }
        return Err(Refusal::LimitPassed);
    }
    Err(Refusal::Malformed)
}

// The place after a line of this kind.
pub fn place_line(p: Place, kind: Kind) -> Result<Place, Refusal>
    requires { within_limits p ≡ true }
    ensures { PlacesLine p (number kind) result }
{
    let q = read_grammar::place_after(kind, p);
    next_place(
        read_grammar::is_in_place(kind, p),
        read_grammar::is_within(q, kind),
        q,
    )
}

// THE TABLE OF LINES: 3 bytes a line, the end of its word (2 bytes) and the number of its kind

const LINE_BYTES: usize = 3;

// Where in them the kind stands.
const KIND: usize = 2;

#[tactic(auto, unfolding(crate::specs::Table::put_line))]
fn put_line(work: &mut Area, i: usize, w: Word)
    requires { (i < most_lines) × (w.end < half_values) }
    ensures { work.new ≡ put_line work.old i w }
{
    let at = Layout::LINES + LINE_BYTES * i;
    tables::put_half(work, at, w.end);
    work[at + KIND] = w.kind;
}

// The word of line i.
pub fn line_word(work: &Area, i: usize) -> Word
    requires { i < most_lines }
    ensures { result ≡ word_in work.now i }
{
    let at = Layout::LINES + LINE_BYTES * i;
    let end = tables::half_at(work, at);
    let kind = work[at + KIND];
    Word { kind, end }
}

// THE PASS

// Where a line's LF is, and the place after the line.
#[derive(Clone, Copy)]
struct NextLine {
    feed: usize,
    place: Place,
}

// The answer on a line of this kind with its LF at e.
fn placed_line(p: Place, kind: Kind, e: usize) -> Result<NextLine, Refusal>
    requires { within_limits p ≡ true }
    ensures { PlacesLineTo p (number kind) e result }
{
    let place = place_line(p, kind)?;
    Ok(NextLine { feed: e, place })
}

// Why a line that has not its form is refused: the first byte that ends it is its LF, or no byte of a line.
fn refused_line(t: &[u8], at: usize) -> Refusal
    requires { (at < length t.now) × Unformed t.now at }
    ensures { RefusesLine t.now at result }
{
    let end = read_bytes::find(t, at, Set::LineEnd);
    if read_bytes::byte_at(t, end) != Byte::LINE_FEED {
        return Refusal::BadByte;
    }
    Refusal::Malformed
}

// The line that begins at `at`, with n lines above it. A line that has its form ends with its last field.
fn scan_line(t: &[u8], work: &mut Area, at: usize, n: usize, p: Place) -> Result<NextLine, Refusal>
    requires { (at < length t.now) × (within_limits p ≡ true) × (length t.now ≤ most_bytes) × (least_line * n ≤ at) }
    ensures { ScansLine t.now at p result × NotesLine t.now work.old at n result work.new }
{
    let w = first_word(t, at);
    let Some(e) = line_fields(t, w) else {
        return Err(refused_line(t, at));
    };
    if read_bytes::byte_at(t, e) != Byte::LINE_FEED {
        return Err(Refusal::BadByte);
    }
    put_line(work, n, w);
    placed_line(p, Kind::numbered(w.kind), e)
}

// Why a text is refused in pass 1, and at which line.
#[derive(Clone, Copy)]
pub struct RefusedLine {
    pub why: Refusal,
    pub line: usize,
}

// Form, place and limits of every line, and the text's end; keeps the table of lines. The count of the lines of a text that is taken.
pub fn scan(text: &[u8], work: &mut Area) -> Result<usize, RefusedLine>
    requires { length text.now ≤ most_bytes }
    ensures { (verdict_of result ≡ scan_text text.now) × TableOf text.now work.new result }
{
    let mut p = read_grammar::first_place();
    let mut at = 0;
    let mut n = 0;
    while at < text.len() {
        let a = scan_line(text, work, at, n, p);
        n += 1;
        match a {
            Ok(next) => {
                p = next.place;
                at = next.feed + 1;
            }
            Err(why) => {
                return Err(RefusedLine { why, line: n });
            }
        }
    }
    if p.stage == Stage::AFTER_MAIN {
        return Ok(n);
    }
    Err(RefusedLine {
        why: Refusal::TextEnds,
        line: n,
    })
}
