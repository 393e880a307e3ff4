// The rows of statements that have no atom.
#![tactic(auto)]

mod calls;
mod chains;

ghost use Rattle.std.specs.Prelude.{◌≡◌, ◌≤◌, ◌<◌, length};
ghost use Rattle.rules.specs.Numbered.{number};
ghost use Rattle.rules.specs.Limits.{most_statements};
ghost use Rattle.rules.specs.Base.{is};
ghost use Rattle.rules.specs.Names.{is_local};
ghost use Rattle.tables.specs.Numbers.{half_values};
ghost use Rattle.tables.specs.Layout.{frame_variables};
ghost use Rattle.read_names.specs.Rows.{name_in};
ghost use Rattle.read_scopes.specs.Meanings.{AreaFits, variables_in};
ghost use Rattle.read_lookups.specs.LookUps.{Looked, type_of};
ghost use Rattle.read_types.specs.Verdicts.{test};
ghost use Rattle.write_plain.specs.Plain.{bare, set_row, new_row, return_row, compute_row, plain_row, set_judged, new_judged, return_judged, compute_judged, plain_judged, RowTried, TriedAfter, may_set, may_hold, may_compute, PlainFollows, PlainTried};

use read_names::Span;
use read_scopes::Names;
use read_types::{Fault, Member};
use rules::Kind;
use tables::{Area, Operands, RowKind};

// The number of the variable named at a place of the text.
fn variable_at(text: &[u8], work: &Area, c: Names, s: Span) -> usize
    requires { AreaFits work.now c }
    ensures { Looked text.now work.now (variables_in text.now work.now c) (name_in text.now s) result }
{
    read_lookups::variable(text, work, c, read_names::name_in(text, s))
}

// May a line assign to the variable x?
#[tactic(auto, unfolding(rules::specs::Names::is_local))]
pub fn is_local(x: usize) -> bool
    ensures { result ≡ is_local x }
{
    if x < read_scopes::FIRST_LOCAL {
        return false;
    }
    x < read_names::RESULT
}

// The row, if the line is good: not a `?` in each function of a row, so that one law of the row speaks of both its exits.
#[tactic(auto, unfolding(crate::specs::Plain::RowTried))]
fn row_if(v: Result<(), Fault>, o: Operands) -> Result<Operands, Fault>
    ensures { RowTried v o result }
{
    v?;
    Ok(o)
}

// The number of a kind.
fn number_of(kind: Kind) -> u8
    ensures { result ≡ number kind }
{
    kind as u8
}

fn row(kind: u8, x: usize, y: usize, z: usize, member: usize, line: usize) -> Operands
    ensures { result ≡ bare kind x y z member line }
{
    Operands {
        kind,
        x,
        y,
        z,
        member,
        atoms: 0,
        first: 0,
        line,
    }
}

// May x.f be set to y?
#[tactic(auto, unfolding(read_types::specs::Verdicts::opened))]
fn judge_set(text: &[u8], work: &Area, x: Member, y: usize) -> Result<(), Fault>
    requires { y ≤ frame_variables }
    ensures { result ≡ may_set text.now work.now x y }
{
    read_types::test(y < read_names::NO_VARIABLE, Fault::Undeclared)?;
    x.verdict?;
    let same = read_lookups::same_name(text, x.is, read_lookups::type_of(work, y));
    read_types::test(same, Fault::WrongType)
}

// `set x f y`, the word of which ends at r
fn set_row(text: &[u8], work: &Area, c: Names, r: usize, line: usize) -> Result<Operands, Fault>
    requires { AreaFits work.now c × (r ≤ length text.now) }
    ensures { TriedAfter text.now work.now c r set_judged set_row line result }
{
    let a = read_declarations::span_after(text, r);
    let b = read_declarations::span_after(text, a.start + a.len);
    let d = read_declarations::span_after(text, b.start + b.len);
    let x = read_types::look_path(
        text,
        work,
        c,
        read_names::name_in(text, a),
        read_names::name_in(text, b),
    );
    let y = variable_at(text, work, c, d);
    let v = judge_set(text, work, x, y);
    row_if(v, row(Kind::Set as u8, x.variable, y, 0, x.number, line))
}

// May x hold a new object of the class that is named at s and has the number k?
#[tactic(auto, unfolding(read_types::specs::Verdicts::opened))]
fn judge_new(text: &[u8], work: &Area, c: Names, x: usize, k: usize, s: Span) -> Result<(), Fault>
    requires { x ≤ frame_variables }
    ensures { result ≡ may_hold text.now work.now c x k s }
{
    read_types::test(x < read_names::NO_VARIABLE, Fault::Undeclared)?;
    let reserved = read_words::is_reserved(read_names::name_in(text, s));
    read_types::test(!reserved, Fault::Undeclared)?;
    read_types::test(k < c.classes, Fault::Undeclared)?;
    let same = read_lookups::same_name(text, read_lookups::type_of(work, x), s);
    read_types::test(same, Fault::WrongType)?;
    read_types::test(is_local(x), Fault::WrongTarget)
}

// `new x C`
fn new_row(text: &[u8], work: &Area, c: Names, r: usize, line: usize) -> Result<Operands, Fault>
    requires { AreaFits work.now c × (r ≤ length text.now) }
    ensures { TriedAfter text.now work.now c r new_judged new_row line result }
{
    let a = read_declarations::span_after(text, r);
    let b = read_declarations::span_after(text, a.start + a.len);
    let x = variable_at(text, work, c, a);
    let k = read_lookups::class_number(text, work, c, read_names::name_in(text, b));
    let v = judge_new(text, work, c, x, k, b);
    row_if(v, row(Kind::New as u8, x, 0, 0, k, line))
}

// `return x`
fn return_row(text: &[u8], work: &Area, c: Names, r: usize, line: usize) -> Result<Operands, Fault>
    requires { AreaFits work.now c × (r ≤ length text.now) }
    ensures { TriedAfter text.now work.now c r return_judged return_row line result }
{
    let a = read_declarations::span_after(text, r);
    let x = variable_at(text, work, c, a);
    if read_names::NO_VARIABLE <= x {
        return Err(Fault::Undeclared);
    }
    let result = read_lookups::variable_type(text, work, c, b"result");
    let same = read_lookups::same_name(text, read_lookups::type_of(work, x), result);
    let v = read_types::test(same, Fault::WrongType);
    row_if(v, row(Kind::Return as u8, x, 0, 0, 0, line))
}

// Is x an int?
#[tactic(auto, unfolding(read_types::specs::Verdicts::opened))]
fn test_int(text: &[u8], work: &Area, x: usize) -> Result<(), Fault>
    requires { x ≤ frame_variables }
    ensures { result ≡ test (is "int" (name_in text.now (type_of work.now x))) Fault.WrongType (Ok tt) }
{
    read_types::test(
        read_lookups::is_int(text, read_lookups::type_of(work, x)),
        Fault::WrongType,
    )
}

// May x take the sum or the difference of y and z?
#[tactic(auto, unfolding(read_types::specs::Verdicts::opened))]
fn judge_compute(text: &[u8], work: &Area, x: usize, y: usize, z: usize) -> Result<(), Fault>
    requires { (x ≤ frame_variables) × (y ≤ frame_variables) × (z ≤ frame_variables) }
    ensures { result ≡ may_compute text.now work.now x y z }
{
    read_types::test(calls::are_known(x, y, z), Fault::Undeclared)?;
    test_int(text, work, x)?;
    test_int(text, work, y)?;
    test_int(text, work, z)?;
    read_types::test(is_local(x), Fault::WrongTarget)
}

// `add x y z` and `sub x y z`
fn compute_row(
    text: &[u8],
    work: &Area,
    c: Names,
    kind: Kind,
    r: usize,
    line: usize,
) -> Result<Operands, Fault>
    requires { AreaFits work.now c × (r ≤ length text.now) }
    ensures { TriedAfter text.now work.now c r compute_judged (λ Γ vs ws l. compute_row Γ vs ws l (number kind)) line result }
{
    let a = read_declarations::span_after(text, r);
    let b = read_declarations::span_after(text, a.start + a.len);
    let d = read_declarations::span_after(text, b.start + b.len);
    let x = variable_at(text, work, c, a);
    let y = variable_at(text, work, c, b);
    let z = variable_at(text, work, c, d);
    let v = judge_compute(text, work, x, y, z);
    row_if(v, row(number_of(kind), x, y, z, 0, line))
}

// The row of a line of this kind, by its number; `else`, `end` and `again` have no operands.
// A match and no closure: each kind has its own operands, and a contract that names its row and its tests. A byte that is no kind has an answer too.
#[tactic(auto, unfolding(crate::specs::Plain::plain_row, crate::specs::Plain::plain_judged, rules::specs::Grammar::is_computing, rules::specs::Grammar::statement_number))]
pub fn plain_row(
    text: &[u8],
    work: &Area,
    c: Names,
    kind: u8,
    r: usize,
    line: usize,
) -> Result<Operands, Fault>
    requires { AreaFits work.now c × (r ≤ length text.now) }
    ensures { TriedAfter text.now work.now c r (λ Γ vs ws. plain_judged Γ vs ws kind) (λ Γ vs ws l. plain_row Γ vs ws l kind) line result }
{
    match kind {
        RowKind::SET => set_row(text, work, c, r, line),
        RowKind::NEW => new_row(text, work, c, r, line),
        RowKind::CALL => calls::call_row(text, work, c, r, line),
        RowKind::RETURN => return_row(text, work, c, r, line),
        RowKind::ADD => compute_row(text, work, c, Kind::Add, r, line),
        RowKind::SUB => compute_row(text, work, c, Kind::Sub, r, line),
        RowKind::OPEN => chains::open_row(text, work, c, r, line),
        RowKind::SHUT => chains::shut_row(text, work, c, r, line),
        _ => row_if(Ok(()), row(kind, 0, 0, 0, 0, line)),
    }
}

// Tries a line of this kind, whose word ends at r: writes it as the row i if it is good.
pub fn put_plain(
    text: &[u8],
    work: &mut Area,
    c: Names,
    kind: Kind,
    r: usize,
    i: usize,
    line: usize,
) -> Result<(), Fault>
    requires { AreaFits work.old c × PlainFollows text.now (number kind) r × (i < most_statements) × (line < half_values) }
    ensures { PlainTried text.now work.old c (number kind) r i line work.new result }
{
    let o = plain_row(text, work, c, number_of(kind), r, line)?;
    write_rows::put_row(work, i, o);
    Ok(())
}
