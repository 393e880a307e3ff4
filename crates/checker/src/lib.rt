// Blocks, methods and main: the rules walked over the tables. A block's checker calls itself for each part of a branch and for each loop,
// the remaining depth falling.
#![tactic(auto)]

mod parts;

ghost use Rattle.std.specs.Prelude.{◌≡◌, false, [], ◌+◌, ◌≤◌, ◌<◌};
ghost use Rattle.rules.specs.Grammar.{If, Loop, is_closing_number};
ghost use Rattle.tables.specs.Layout.{most_atom_rows};
ghost use Rattle.rules.specs.Rules.{check_program, check_method, check_blocks};
ghost use Rattle.tables.specs.Decode.{kind_at, row_count, method_count, atoms_from, method_at, program_in};
ghost use Rattle.tables.specs.Tables.{Tables};
ghost use Rattle.check_state.specs.States.{state_of};
ghost use Rattle.check_rows.specs.Rows.{RowIs};
ghost use Rattle.checker.specs.Checked.{Nests, Stands, Passed, Ran, block_verdict, verdict_of, line_of, on_line};

use check_entailment::Refusal;
use check_equality::State;
use check_state::Known;
use rules::{Kind, Machine};
use tables::Area;

// How far a block was checked, and whether the line before was a `return`.
#[derive(Clone, Copy)]
pub struct Reached {
    pub at: usize,
    pub returned: bool,
}

// The row at which a block was refused, and why.
#[derive(Clone, Copy)]
pub struct RefusedRow {
    pub why: Refusal,
    pub row: usize,
}

// The line at which a program is refused, and why.
#[derive(Clone, Copy)]
pub struct RefusedLine {
    pub why: Refusal,
    pub line: usize,
}

// The branch whose `if` is row i, up to its `join`, where both its parts are checked with one less to open.
#[cycle(block_body_branch_row)]
fn branch(
    w: &Area,
    depth: usize,
    i: usize,
    a: usize,
    n: usize,
    known: &mut Known,
) -> Result<Reached, RefusedRow>
    requires { Stands w.now depth i a n × RowIs w.now i If }
    ensures { Passed w.now depth i (atoms_from w.now a n) (state_of known.old.keys known.old.bytes) result known.new.keys known.new.bytes }
{
    let mut other = *known;
    parts::at_row(check_rows::if_at(w, i, known, &mut other), i)?;
    let one = block(w, depth - 1, i + 1, a, n, known)?;
    parts::turned(w, one)?;
    let two = block(w, depth - 1, one.at + 1, a, n, &mut other)?;
    parts::joined(w, two, one.returned, known, &other)
}

// The loop whose `loop` is row i: its body, up to its `again`.
#[cycle(block_body_branch_row)]
fn body(
    w: &Area,
    depth: usize,
    i: usize,
    a: usize,
    n: usize,
    known: &mut Known,
) -> Result<Reached, RefusedRow>
    requires { Stands w.now depth i a n × RowIs w.now i Loop }
    ensures { Passed w.now depth i (atoms_from w.now a n) (state_of known.old.keys known.old.bytes) result known.new.keys known.new.bytes }
{
    parts::at_row(check_rows::loop_at(w, i, known), i)?;
    let end = block(w, depth - 1, i + 1, a, n, known)?;
    parts::closed(w, i, end, known)
}

// Row i, with the whole branch or loop that it opens.
// A match and no closure: these functions call one another, and each has a contract of its own.
#[cycle(block_body_branch_row)]
#[tactic(auto, unfolding(rules::specs::Grammar::statement_number))]
fn row(
    w: &Area,
    depth: usize,
    i: usize,
    a: usize,
    n: usize,
    known: &mut Known,
) -> Result<Reached, RefusedRow>
    requires { Stands w.now depth i a n × (is_closing_number (kind_at w.now i) ≡ false) }
    ensures { Passed w.now depth i (atoms_from w.now a n) (state_of known.old.keys known.old.bytes) result known.new.keys known.new.bytes }
{
    match tables::row_kind(w, i) {
        Kind::Return => parts::return_at(w, i, a, n, known),
        Kind::If => branch(w, depth, i, a, n, known),
        Kind::Loop => body(w, depth, i, a, n, known),
        _ => parts::passed(check_rows::statement(w, i, known), i),
    }
}

// The rows from `from` on, up to the one that closes them, in a block that must show n atoms from the atom a on, where so many branches
// and loops may still be opened.
#[cycle(block_body_branch_row)]
#[tactic(auto, using(check_state::proofs::Whole::whole))]
pub fn block(
    w: &Area,
    depth: usize,
    from: usize,
    a: usize,
    n: usize,
    known: &mut Known,
) -> Result<Reached, RefusedRow>
    requires { Stands w.now depth from a n }
    ensures { Ran w.now depth from (atoms_from w.now a n) (state_of known.old.keys known.old.bytes) result known.new.keys known.new.bytes }
{
    let mut at = from;
    while !tables::is_closing_at(w, at) {
        let r = row(w, depth, at, a, n, known)?;
        if r.returned {
            return Ok(r);
        }
        at = r.at;
    }
    Ok(Reached {
        at,
        returned: false,
    })
}

// A line's refusal, if there is one.
fn on_line(r: Result<(), Refusal>, line: usize) -> Result<(), RefusedLine>
    ensures { result ≡ on_line r line }
{
    r.map_err(|why| RefusedLine { why, line })
}

// A refused row by its line.
fn line_of(w: &Area, r: RefusedRow) -> RefusedLine
    requires { Tables w.now × (r.row < row_count w.now) }
    ensures { result ≡ line_of w.now r }
{
    RefusedLine {
        why: r.why,
        line: tables::line_at(w, r.row),
    }
}

// The block from a row on, which must show n atoms from the atom a on where it ends.
fn check_block(
    w: &Area,
    from: usize,
    a: usize,
    n: usize,
    known: &mut Known,
) -> Result<(), RefusedLine>
    requires { Tables w.now × (from < row_count w.now) × Nests w.now from 0 × (a + n ≤ most_atom_rows) }
    ensures { verdict_of result ≡ block_verdict w.now from a n (state_of known.old.keys known.old.bytes) }
{
    // A match: the closure of a map_err would need clauses of its own.
    let end = match block(w, Machine::BRANCHES, from, a, n, known) {
        Ok(end) => end,
        Err(r) => return Err(line_of(w, r)),
    };
    let line = tables::line_at(w, end.at);
    if tables::row_kind(w, end.at) != Kind::End {
        return Err(RefusedLine {
            why: Refusal::Malformed,
            line,
        });
    }
    on_line(
        check_statements::show_end(w, a, n, end.returned, known),
        line,
    )
}

// The method m. What was known before does not matter.
pub fn check_method(w: &Area, m: usize, known: &mut Known) -> Result<(), RefusedLine>
    requires { Tables w.now × (m < method_count w.now) }
    ensures { verdict_of result ≡ check_method (program_in w.now) (method_at w.now m) }
{
    check_forgetting::forget_all(known);
    let a = tables::requires_first(w, m);
    let n = tables::requires_count(w, m);
    let k = check_formulas::add(w, a, n, State::THIS, State::PARAM, State::RESULT, known);
    on_line(k, 0)?;
    let c = tables::ensures_first(w, m);
    let o = tables::ensures_count(w, m);
    check_block(w, tables::first_row_at(w, m), c, o, known)
}

// Main. What was known before does not matter.
pub fn check_main(w: &Area, known: &mut Known) -> Result<(), RefusedLine>
    requires { Tables w.now }
    ensures { verdict_of result ≡ check_blocks (program_in w.now) [] }
{
    check_forgetting::forget_all(known);
    check_block(w, tables::main_first(w), 0, 0, known)
}

// The whole program: its methods in order, and main.
pub fn check(w: &Area) -> Result<(), RefusedLine>
    requires { Tables w.now }
    ensures { verdict_of result ≡ check_program (program_in w.now) }
{
    let mut known = check_forgetting::nothing();
    for m in 0..tables::method_count(w) {
        check_method(w, m, &mut known)?;
    }
    check_main(w, &mut known)
}
