// Any bytes to tables, or to the number and line of rows 2 to 10: pass 1, the declarations, and pass 2 line by line.
#![tactic(auto)]

ghost use Rattle.std.specs.Prelude.{◌≡◌, ◌+◌, ◌-◌, ◌≤◌, ◌<◌, length};
ghost use Rattle.rules.specs.Limits.{most_bytes};
ghost use Rattle.rules.specs.Numbered.{number};
ghost use Rattle.read_grammar.specs.Rows.{kind_numbered};
ghost use Rattle.read_scan.specs.Scans as Scans;
ghost use Rattle.read_scan.specs.Table.{LineTable};
ghost use Rattle.tables.specs.Decode.{framed_from};
ghost use Rattle.read_declarations.specs.Texts.{TextTaken};
ghost use Rattle.read_declarations.specs.Declares.{Declares};
ghost use Rattle.resolve_headers.specs.Headers.{Held};
ghost use Rattle.resolve_bodies.specs.Bodies.{Follows};
ghost use Rattle.resolve_pass.specs.Passes.{first_pass, LineRoom, is_framed, line_after, LineTried};
ghost use Rattle.reader.specs.Readings.{unframed_by, with_unframed, Between, Written, Begins, StepIs, ResolvedIs, ReadingIs, refusal_of, number_of};

use read_scan::Word;
use read_scopes::{Above, Names, Range};
use read_types::Fault;
use resolve_pass::Pass;
use rules::{Kind, Machine};
use tables::Area;

// Why a text is refused.
#[derive(Clone, Copy)]
pub enum Refusal {
    TextTooLong,
    BadByte,
    Malformed,
    LimitPassed,
    Undeclared,
    WrongType,
    TextEnds,
    WrongTarget,
}

impl From<Fault> for Refusal {
    ghost from_gives = { λ f r. refusal_of r ≡ number_of f };

    #[tactic(auto, unfolding(crate::specs::Readings::refusal_of, crate::specs::Readings::number_of))]
    fn from(f: Fault) -> Refusal {
        match f {
            Fault::Undeclared => Refusal::Undeclared,
            Fault::WrongType => Refusal::WrongType,
            Fault::WrongTarget => Refusal::WrongTarget,
        }
    }
}

impl From<read_scan::Refusal> for Refusal {
    ghost from_gives = { λ s r. refusal_of r ≡ Scans.refusal_of s };

    #[tactic(auto, unfolding(crate::specs::Readings::refusal_of))]
    fn from(s: read_scan::Refusal) -> Refusal {
        match s {
            read_scan::Refusal::BadByte => Refusal::BadByte,
            read_scan::Refusal::Malformed => Refusal::Malformed,
            read_scan::Refusal::LimitPassed => Refusal::LimitPassed,
            read_scan::Refusal::TextEnds => Refusal::TextEnds,
        }
    }
}

// Why a text is refused, and at which line.
#[derive(Clone, Copy)]
pub struct RefusedLine {
    pub why: Refusal,
    pub line: usize,
}

impl From<read_scan::RefusedLine> for RefusedLine {
    ghost from_gives = { λ s r. (refusal_of r.why ≡ Scans.refusal_of s.why) × (r.line ≡ s.line) };

    fn from(s: read_scan::RefusedLine) -> RefusedLine {
        RefusedLine {
            why: Refusal::from(s.why),
            line: s.line,
        }
    }
}

// ONE LINE

// Puts a line of this kind, the word of which ends at r, into the tables if it is good.
// A match and no closure: each form has a contract of its own.
fn try_line(text: &[u8], work: &mut Area, p: Pass, kind: Kind, r: usize) -> Result<Pass, Fault>
    requires { Follows text.now work.old p (number kind) r × Held work.old p }
    ensures { LineTried text.now work.old p (line_after text.now r (number kind)) work.new result }
{
    match kind {
        Kind::Class | Kind::Main => resolve_headers::put_declaration(text, work, p, kind, r),
        Kind::Field => resolve_headers::put_field(text, work, p, r),
        Kind::Method => resolve_headers::put_method(text, work, p, r),
        Kind::Requires | Kind::Ensures => resolve_bodies::put_header(text, work, p, kind, r),
        Kind::Var => resolve_headers::put_var(text, work, p, r),
        Kind::Set
        | Kind::Let
        | Kind::New
        | Kind::Call
        | Kind::Return
        | Kind::Assert
        | Kind::Release
        | Kind::If
        | Kind::Else
        | Kind::Join
        | Kind::End
        | Kind::Add
        | Kind::Sub
        | Kind::Loop
        | Kind::Again
        | Kind::Open
        | Kind::Shut => resolve_bodies::put_statement(text, work, p, kind, r),
    }
}

// Is number 10 about lines of this kind?
fn is_framed(kind: Kind) -> bool
    ensures { result ≡ is_framed (kind_numbered (number kind)) }
{
    matches!(
        kind,
        Kind::Requires | Kind::Ensures | Kind::Join | Kind::Loop
    )
}

// The first line that number 10 refuses, if any, after a line of this kind between p and q.
fn first_unframed(work: &Area, kind: Kind, p: Pass, q: Pass) -> Option<usize>
    requires { Between work.now (number kind) p q }
    ensures { result ≡ unframed_by (is_framed (kind_numbered (number kind))) (framed_from work.now (number kind) p.atoms (q.atoms - p.atoms)) p }
{
    if let Some(line) = p.unframed {
        return Some(line);
    }
    if is_framed(kind) {
        if resolve_framing::framed_line(work, kind, p.atoms, q.atoms - p.atoms) {
            return None;
        }
        return Some(p.line + 1);
    }
    None
}

fn with_unframed(p: Pass, unframed: Option<usize>) -> Pass
    ensures { result ≡ with_unframed p unframed }
{
    Pass { unframed, ..p }
}

// The pass q after a line of this kind, with the first line that number 10 refuses; p is the pass before it.
fn take_line(work: &Area, kind: Kind, p: Pass, q: Pass) -> Pass
    requires { Between work.now (number kind) p q }
    ensures { result ≡ with_unframed q (unframed_by (is_framed (kind_numbered (number kind))) (framed_from work.now (number kind) p.atoms (q.atoms - p.atoms)) p) }
{
    let u = first_unframed(work, kind, p, q);
    with_unframed(q, u)
}

// The line with the word w. Its names are looked up once, as it is written.
fn read_line(text: &[u8], work: &mut Area, w: Word, p: Pass) -> Result<Pass, Refusal>
    requires { Begins text.now work.old p w × LineRoom text.now work.old p (line_after text.now w.end w.kind) × Written text.now work.old p }
    ensures { StepIs text.now work.old p (line_after text.now w.end w.kind) work.new result }
{
    let kind = Kind::numbered(w.kind);
    let q = try_line(text, work, p, kind, w.end)?;
    Ok(take_line(work, kind, p, q))
}

// ALL LINES

fn first_pass(names: Names) -> Pass
    ensures { result ≡ first_pass names }
{
    let none = Range { first: 0, count: 0 };
    let above = Above {
        classes: 0,
        fields: none,
        methods: none,
    };
    Pass {
        names,
        above,
        rows: 0,
        atoms: 0,
        main: 0,
        line: 0,
        unframed: None,
    }
}

// Names, types and targets of the n lines of a text that pass 1 takes, whose table and whose declarations stand in the work area.
fn read_lines(text: &[u8], work: &mut Area, names: Names, n: usize) -> Result<Pass, RefusedLine>
    requires { (length text.now ≤ most_bytes) × TextTaken text.now × LineTable text.now work.old n × Declares text.now work.old work.old names }
    ensures { ResolvedIs text.now work.new result }
{
    let mut p = first_pass(names);
    for i in 0..n {
        let w = read_scan::line_word(work, i);
        match read_line(text, work, w, p) {
            Err(why) => {
                let line = p.line + 1;
                return Err(RefusedLine { why, line });
            }
            Ok(q) => p = q,
        }
    }
    Ok(p)
}

// THE TEXT

// Pass 2 over a text of n lines that pass 1 takes: gives the first line that number 10 refuses, if any.
fn resolve(text: &[u8], work: &mut Area, n: usize) -> Result<Option<usize>, RefusedLine>
    requires { (length text.now ≤ most_bytes) × TextTaken text.now × LineTable text.now work.old n }
    ensures { ReadingIs text.now work.new result }
{
    let names = read_declarations::declare(text, work, n);
    let p = read_lines(text, work, names, n)?;
    targets::finish(
        work,
        p.rows,
        p.atoms,
        p.names.classes,
        p.names.methods,
        p.main,
    );
    Ok(p.unframed)
}

// The text as tables in the work area, with the first line that number 10 refuses, if any; or its number and line.
pub fn read(text: &[u8], work: &mut Area) -> Result<Option<usize>, RefusedLine>
    ensures { ReadingIs text.now work.new result }
{
    if Machine::TEXT_BYTES < text.len() {
        return Err(RefusedLine {
            why: Refusal::TextTooLong,
            line: 0,
        });
    }
    let n = read_scan::scan(text, work)?;
    resolve(text, work, n)
}
