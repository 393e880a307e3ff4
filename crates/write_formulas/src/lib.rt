// Lines with a formula written.
#![tactic(auto)]

ghost use Rattle.std.specs.Prelude.{◌≡◌, ◌≤◌, ◌<◌};
ghost use Rattle.rules.specs.Limits.{most_statements, most_methods, most_atoms};
ghost use Rattle.rules.specs.Numbered.{number};
ghost use Rattle.rules.specs.Items.{a_requires, an_ensures};
ghost use Rattle.tables.specs.Numbers.{half_values};
ghost use Rattle.tables.specs.Layout.{most_atom_rows};
ghost use Rattle.read_scopes.specs.Meanings.{AreaFits};
ghost use Rattle.resolve_atoms.specs.Written.{FormulaFollows};
ghost use Rattle.write_formulas.specs.Claims.{own_first, claim_row, ClaimFollows, ClaimTried, HeaderTried};

use read_scopes::Names;
use read_types::Fault;
use rules::Kind;
use tables::{Area, Operands};

// The first atom of the statement's own formula, if n is the first of its line: that of a `loop` is its condition.
fn formula_first(kind: Kind, n: usize) -> usize
    requires { n ≤ most_atom_rows }
    ensures { result ≡ own_first (number kind) n }
{
    if kind == Kind::Loop { n + 1 } else { n }
}

// The row of a statement with the atoms from `first` up to `end`.
fn row(kind: Kind, first: usize, end: usize, line: usize) -> Operands
    requires { first ≤ end }
    ensures { result ≡ claim_row (number kind) first end line }
{
    Operands {
        kind: kind as u8,
        x: 0,
        y: 0,
        z: 0,
        member: 0,
        atoms: end - first,
        first,
        line,
    }
}

// Writes the formula after r as the atoms from n on, and the statement of this kind with it as the row i; gives the number after the
// last atom.
pub fn put_claim(
    text: &[u8],
    work: &mut Area,
    c: Names,
    kind: Kind,
    r: usize,
    i: usize,
    n: usize,
    line: usize,
) -> Result<usize, Fault>
    requires { AreaFits work.old c × ClaimFollows text.now work.old c (number kind) r n × (i < most_statements) × (line < half_values) }
    ensures { ClaimTried text.now work.old c (number kind) r i n line work.new result }
{
    let m = resolve_atoms::put_formula(text, work, r, n, c)?;
    let first = formula_first(kind, n);
    write_rows::put_row(work, i, row(kind, first, m, line));
    Ok(m)
}

// Writes the formula after r as the atoms from n on, and as the requires of the method m. As `put_ensures` but for its writer: one function
// for both would take that as a closure and say what it leaves, for three lines.
pub fn put_requires(
    text: &[u8],
    work: &mut Area,
    c: Names,
    r: usize,
    m: usize,
    n: usize,
) -> Result<usize, Fault>
    requires { AreaFits work.old c × FormulaFollows text.now work.old c most_atoms r n × (m < most_methods) }
    ensures { HeaderTried a_requires text.now work.old c r m n work.new result }
{
    let e = resolve_atoms::put_formula(text, work, r, n, c)?;
    write_rows::put_requires(work, m, n, e - n);
    Ok(e)
}

// Writes it as the ensures of the method m.
pub fn put_ensures(
    text: &[u8],
    work: &mut Area,
    c: Names,
    r: usize,
    m: usize,
    n: usize,
) -> Result<usize, Fault>
    requires { AreaFits work.old c × FormulaFollows text.now work.old c most_atoms r n × (m < most_methods) }
    ensures { HeaderTried an_ensures text.now work.old c r m n work.new result }
{
    let e = resolve_atoms::put_formula(text, work, r, n, c)?;
    write_rows::put_ensures(work, m, n, e - n);
    Ok(e)
}
