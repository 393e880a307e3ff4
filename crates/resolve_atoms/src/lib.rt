// The atoms of a line looked up, tested and written.
#![tactic(auto)]

ghost use Rattle.std.specs.Prelude.{◌≡◌, true, ◌<◌};
ghost use Rattle.rules.specs.Syntax.{cmp};
ghost use Rattle.rules.specs.Text.{is_expr, expr_of, is_atom, atom_of};
ghost use Rattle.read_atoms.specs.Atoms.{atom_word};
ghost use Rattle.tables.specs.Layout.{most_atom_rows, most_line_atoms};
ghost use Rattle.tables.specs.Decode.{rel_of};
ghost use Rattle.tables.specs.Kinds.{kind_number};
ghost use Rattle.read_scopes.specs.Meanings.{AreaFits};
ghost use Rattle.resolve_atoms.specs.Written.{IsRelation, permission_row, AtomTriedIn, AtomFollows, NextTried, FormulaFollows, FormulaTried};

use read_scopes::Names;
use read_types::{Fault, Member};
use tables::{Area, AtomKind, Expr};

// An atom as a row has it: its kind and its sides.
#[derive(Clone, Copy)]
pub struct AtomRow {
    pub kind: AtomKind,
    pub left: Expr,
    pub right: Expr,
}

// An atom of a line tried: where it ends.
#[derive(Clone, Copy)]
pub struct NextAtom {
    pub end: usize,
    pub verdict: Result<(), Fault>,
}

// ONE ATOM

// `acc x f`, `read x f` or `chain x f`, by its kind, of what was looked up
#[tactic(auto, unfolding(crate::specs::Written::permission_row, crate::specs::Written::row_if))]
fn permission(kind: AtomKind, m: Member) -> Result<AtomRow, Fault>
    ensures { result ≡ permission_row kind m }
{
    m.verdict?;
    Ok(AtomRow {
        kind,
        left: Expr::Path(m.variable, m.number),
        right: Expr::Null,
    })
}

// `eq` or `ne`, by its kind
// It takes what `resolve_atom` takes, whose case it is; a struct of that would be made there and taken apart here.
fn compared(
    text: &[u8],
    work: &Area,
    c: Names,
    kind: AtomKind,
    a: &[u8],
    b: &[u8],
) -> Result<AtomRow, Fault>
    requires { AreaFits work.now c × IsRelation (kind_number kind) × ((is_expr a.now ≡ true) × (is_expr b.now ≡ true)) }
    ensures { AtomTriedIn text.now work.now c (cmp (rel_of (kind_number kind)) (expr_of a.now) (expr_of b.now)) result }
{
    let x = read_types::look(text, work, c, a);
    let y = read_types::look(text, work, c, b);
    read_types::lower(x.verdict, y.verdict)?;
    if !read_types::agree(text, x.is, y.is) {
        return Err(Fault::WrongType);
    }
    Ok(AtomRow {
        kind,
        left: x.expr,
        right: y.expr,
    })
}

// The atom of this kind with these two fields after its word.
pub fn resolve_atom(
    text: &[u8],
    work: &Area,
    c: Names,
    kind: AtomKind,
    a: &[u8],
    b: &[u8],
) -> Result<AtomRow, Fault>
    requires { AreaFits work.now c × (is_atom (atom_word (kind_number kind)) a.now b.now ≡ true) }
    ensures { AtomTriedIn text.now work.now c (atom_of (atom_word (kind_number kind)) a.now b.now) result }
{
    match kind {
        AtomKind::Read | AtomKind::Acc => {
            permission(kind, read_types::look_path(text, work, c, a, b))
        }
        AtomKind::Chain => permission(kind, read_types::look_chain(text, work, c, a, b)),
        AtomKind::Eq | AtomKind::Ne => compared(text, work, c, kind, a, b),
    }
}

// THE FORMULA OF A LINE

// Writes the atom after the field that ends at r as the atom n, if it is good. The first letter of its word tells its row.
fn put_next_atom(text: &[u8], work: &mut Area, r: usize, n: usize, c: Names) -> NextAtom
    requires { AreaFits work.old c × AtomFollows text.now r × (n < most_atom_rows) }
    ensures { NextTried text.now work.old c r n work.new result }
{
    let kind = read_atoms::begun_by(read_bytes::byte_at(text, r + 1)).unwrap();
    let row = read_atoms::row_of_kind(kind);
    let x = r + 1 + row.bytes;
    let y = read_fields::next_field(text, x);
    let z = read_fields::next_field(text, y);
    let i = x + 1;
    let j = y + 1;
    match resolve_atom(text, work, c, kind, &text[i..y], &text[j..z]) {
        Err(f) => NextAtom {
            end: z,
            verdict: Err(f),
        },
        Ok(a) => {
            write_rows::put_atom(work, n, a.kind, a.left, a.right);
            NextAtom {
                end: z,
                verdict: Ok(()),
            }
        }
    }
}

// Writes the formula of the fields after `from` as the atoms from `first` on, and gives the number after its last; nothing of it counts
// if it is refused. The atoms after one of a wrong type may name what is not declared.
pub fn put_formula(
    text: &[u8],
    work: &mut Area,
    from: usize,
    first: usize,
    c: Names,
) -> Result<usize, Fault>
    requires { AreaFits work.old c × FormulaFollows text.now work.old c most_line_atoms from first }
    ensures { FormulaTried text.now work.old c from first work.new result }
{
    let mut r = from;
    let mut n = first;
    let mut v = Ok(());
    while read_bytes::byte_at(text, r) == b'\t' {
        let p = put_next_atom(text, work, r, n, c);
        v = read_types::lower(v, p.verdict);
        r = p.end;
        n += 1;
    }
    v?;
    Ok(n)
}
