// The rows of all classes, fields and methods that a text declares; the line reader.
#![tactic(auto)]

ghost use Rattle.std.specs.Prelude.{◌≡◌, ◌≤◌, ◌<◌, pred, length, drop};
ghost use Rattle.rules.specs.Limits.{work_bytes, most_bytes, most_classes, most_methods};
ghost use Rattle.rules.specs.Grammar.{Class, Field, Method};
ghost use Rattle.read_bytes.specs.Marks.{byte_values};
ghost use Rattle.tables.specs.Layout.{most_names, lines_at};
ghost use Rattle.tables.specs.Stores.{Kept};
ghost use Rattle.read_fields.specs.Cuts.{more};
ghost use Rattle.read_grammar.specs.Rows.{kind_numbered};
ghost use Rattle.read_scan.specs.Table.{WordAt, LineTable};
ghost use Rattle.read_declarations.specs.Texts.{TextTaken, SpanAfter};
ghost use Rattle.read_declarations.specs.Declares.{line_with, NameAfter, no_names, TextFits, LineReady, MethodRow, Adds, Declares};

use read_names::{Row, Span};
use read_scan::Word;
use read_scopes::Names;
use rules::Kind;
use tables::Area;

// FIELDS OF A LINE

fn field_from(text: &[u8], r: usize) -> Span
    requires { r ≤ length text.now }
    ensures { SpanAfter text.now r result }
{
    let e = read_fields::next_field(text, r);
    if e == r {
        return Span { start: r, len: 0 };
    }
    let start = r + 1;
    Span {
        start,
        len: e - start,
    }
}

// THE LINE READER: the lent text with its position in it

#[derive(Clone, Copy)]
pub struct Reader<'a> {
    pub text: &'a [u8],
    pub at: usize,
}

fn reader_at<'a>(text: &'a [u8], at: usize) -> Reader<'a>
    ensures { (result.text ≡ text.entry) × (result.at ≡ at) }
{
    Reader { text, at }
}

fn read_word<'a>(r: Reader<'a>) -> Word
    requires { r.at ≤ length r.text.now }
    ensures { WordAt r.entry.text.now r.entry.at result }
{
    read_scan::first_word(r.text, r.at)
}

fn read_field<'a>(r: Reader<'a>) -> Span
    requires { r.at ≤ length r.text.now }
    ensures { SpanAfter r.entry.text.now r.entry.at result }
{
    field_from(r.text, r.at)
}

// WITH PLAIN PARAMETERS

// The word of the line that begins at a place.
pub fn word_at(text: &[u8], at: usize) -> Word
    requires { at ≤ length text.now }
    ensures { WordAt text.now at result }
{
    read_word(reader_at(text, at))
}

// The place of the field after the one that ends at r; an empty place where there is none.
pub fn span_after(text: &[u8], r: usize) -> Span
    requires { r ≤ length text.now }
    ensures { SpanAfter text.now r result }
{
    read_field(reader_at(text, r))
}

// ONE LINE: its word ends at r

// The place of the last class, or 0 where there is none.
fn owner(c: Names) -> usize
    ensures { result ≡ pred c.classes }
{
    c.classes.saturating_sub(1)
}

fn declare_class(text: &[u8], work: &mut Area, r: usize, c: Names) -> Names
    requires { TextFits text.now work.old c × (r ≤ length text.now) × (c.classes < most_classes) × NameAfter text.now r 0 }
    ensures { Adds text.now work.old c (line_with Class (more (drop r text.now))) work.new result }
{
    let name = span_after(text, r);
    read_scopes::add_class(text, work, c, name)
}

fn declare_field(text: &[u8], work: &mut Area, r: usize, c: Names) -> Names
    requires { TextFits text.now work.old c × (r ≤ length text.now) × (c.fields < most_names) × NameAfter text.now r 0 × NameAfter text.now r 1 }
    ensures { Adds text.now work.old c (line_with Field (more (drop r text.now))) work.new result }
{
    let gives = span_after(text, r);
    let name = span_after(text, gives.start + gives.len);
    read_scopes::add_field(text, work, c, owner(c), name, gives)
}

// The row of a method by its header.
pub fn method_row(text: &[u8], r: usize, owner: usize) -> Row
    requires { (length text.now ≤ most_bytes) × (r ≤ length text.now) × (owner < byte_values) × NameAfter text.now r 0 × NameAfter text.now r 1 × NameAfter text.now r 2 }
    ensures { MethodRow text.now owner (more (drop r text.now)) result }
{
    let gives = span_after(text, r);
    let name = span_after(text, gives.start + gives.len);
    let takes = span_after(text, name.start + name.len);
    Row {
        owner,
        name,
        gives,
        takes,
    }
}

fn declare_method(text: &[u8], work: &mut Area, r: usize, c: Names) -> Names
    requires { TextFits text.now work.old c × (r ≤ length text.now) × (c.methods < most_methods) × NameAfter text.now r 0 × NameAfter text.now r 1 × NameAfter text.now r 2 }
    ensures { Adds text.now work.old c (line_with Method (more (drop r text.now))) work.new result }
{
    let m = method_row(text, r, owner(c));
    read_scopes::add_method(text, work, c, m)
}

// The row of a line of this kind, if it declares something.
// A match and no closure: the three declare into rows of other forms, and the kind of the line says which.
fn declare_line(text: &[u8], work: &mut Area, r: usize, kind: u8, c: Names) -> Names
    requires { TextFits text.now work.old c × LineReady text.now r kind c }
    ensures { Adds text.now work.old c (line_with (kind_numbered kind) (more (drop r text.now))) work.new result }
{
    match Kind::numbered(kind) {
        Kind::Class => declare_class(text, work, r, c),
        Kind::Field => declare_field(text, work, r, c),
        Kind::Method => declare_method(text, work, r, c),
        _ => c,
    }
}

// ALL LINES

fn no_names() -> Names
    ensures { result ≡ no_names }
{
    Names {
        classes: 0,
        fields: 0,
        methods: 0,
        method: false,
        locals: 0,
        result: false,
    }
}

// The rows of all classes, fields and methods of a text that pass 1 takes, by its table of n lines.
pub fn declare(text: &[u8], work: &mut Area, n: usize) -> Names
    requires { (length text.now ≤ most_bytes) × TextTaken text.now × LineTable text.now work.old n }
    ensures { Declares text.now work.old work.new result × Kept lines_at work_bytes work.old work.new }
{
    let mut c = no_names();
    for i in 0..n {
        let w = read_scan::line_word(work, i);
        c = declare_line(text, work, w.end, w.kind, c);
    }
    c
}
