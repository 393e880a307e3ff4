// The rows of `let` and `if`, with their one atom.
#![tactic(auto)]

ghost use Rattle.std.specs.Prelude.{◌≡◌, ◌≤◌, ◌<◌};
ghost use Rattle.rules.specs.Numbered.{number};
ghost use Rattle.rules.specs.Limits.{most_statements};
ghost use Rattle.rules.specs.Grammar.{Let, If};
ghost use Rattle.tables.specs.Numbers.{half_values};
ghost use Rattle.tables.specs.Layout.{frame_variables};
ghost use Rattle.read_scopes.specs.Meanings.{AreaFits};
ghost use Rattle.write_sides.specs.Sides.{one_row, may_let, SideFollows, SideTried};

use read_scopes::Names;
use read_types::{ExprType, Fault, Lookup};
use rules::Kind;
use tables::{Area, AtomKind, Expr, Operands};

fn row(kind: Kind, x: usize, n: usize, line: usize) -> Operands
    ensures { result ≡ one_row (number kind) x n line }
{
    Operands {
        kind: kind as u8,
        x,
        y: 0,
        z: 0,
        member: 0,
        atoms: 1,
        first: n,
        line,
    }
}

// May e be assigned to x?
#[tactic(auto, unfolding(read_types::specs::Verdicts::opened, read_types::specs::Types::type_meant))]
fn judge_let(text: &[u8], work: &Area, x: usize, e: Lookup) -> Result<(), Fault>
    requires { x ≤ frame_variables }
    ensures { result ≡ may_let text.now work.now x e }
{
    read_types::test(x < read_names::NO_VARIABLE, Fault::Undeclared)?;
    e.verdict?;
    let s = read_lookups::type_of(work, x);
    read_types::test(
        read_types::agree(text, ExprType::Named(s), e.is),
        Fault::WrongType,
    )?;
    read_types::test(write_plain::is_local(x), Fault::WrongTarget)
}

// Tries `let x e`, the word of which ends at r. If it is good, e is written as the right side of the atom n, and the statement as the
// row i; then it gives the number after the atom.
pub fn put_let(
    text: &[u8],
    work: &mut Area,
    c: Names,
    r: usize,
    i: usize,
    n: usize,
    line: usize,
) -> Result<usize, Fault>
    requires { AreaFits work.old c × SideFollows Let text.now r n × (i < most_statements) × (line < half_values) }
    ensures { SideTried Let text.now work.old c r i n line work.new result }
{
    let a = read_declarations::span_after(text, r);
    let b = read_declarations::span_after(text, a.start + a.len);
    let x = read_lookups::variable(text, work, c, read_names::name_in(text, a));
    let l = read_types::look(text, work, c, read_names::name_in(text, b));
    judge_let(text, work, x, l)?;
    write_rows::put_atom(work, n, AtomKind::Eq, Expr::Null, l.expr);
    write_rows::put_row(work, i, row(Kind::Let, x, n, line));
    Ok(n + 1)
}

// Tries `if eq e e` or `if ne e e`: if it is good, its condition is written as the atom n, and the statement as the row i.
pub fn put_if(
    text: &[u8],
    work: &mut Area,
    c: Names,
    r: usize,
    i: usize,
    n: usize,
    line: usize,
) -> Result<usize, Fault>
    requires { AreaFits work.old c × SideFollows If text.now r n × (i < most_statements) × (line < half_values) }
    ensures { SideTried If text.now work.old c r i n line work.new result }
{
    let a = read_declarations::span_after(text, r);
    let b = read_declarations::span_after(text, a.start + a.len);
    let d = read_declarations::span_after(text, b.start + b.len);
    let word = read_names::name_in(text, a);
    let x = read_names::name_in(text, b);
    let y = read_names::name_in(text, d);
    let kind = read_atoms::begun_by(read_bytes::byte_at(word, 0)).unwrap();
    let s = resolve_atoms::resolve_atom(text, work, c, kind, x, y)?;
    write_rows::put_atom(work, n, s.kind, s.left, s.right);
    write_rows::put_row(work, i, row(Kind::If, 0, n, line));
    Ok(n + 1)
}
