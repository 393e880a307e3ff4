// Number 10 over the atoms of a line.
#![tactic(auto)]

ghost use Rattle.std.specs.Prelude.{◌≡◌, ◌&&◌, [], ◌∷◌, ◌++◌, ◌+◌, ◌-◌, ◌≤◌, ◌<◌};
ghost use Rattle.rules.specs.Numbered.{number};
ghost use Rattle.rules.specs.Grammar.{loop_kind};
ghost use Rattle.rules.specs.Syntax.{path};
ghost use Rattle.rules.specs.Reading.{framed_expr, framed};
ghost use Rattle.tables.specs.Layout.{most_atom_rows};
ghost use Rattle.tables.specs.Decode.{atom_at, atoms_from, framed_from};
ghost use Rattle.tables.specs.Stores.{meaning};
ghost use Rattle.resolve_framing.specs.Framing.{access_at, is_access, is_of, accesses, sides_framed};

use rules::Kind;
use tables::{Area, AtomKind, Expr};

// W8: "For number 10, `read x f` serves as `acc x f` does."; `chain x f` does not.
#[tactic(auto, unfolding(tables::specs::Kinds::kind_of, tables::specs::Decode::is_permission, tables::specs::Decode::permit_of, rules::specs::Syntax::is_path))]
fn is_access(work: &Area, a: usize) -> bool
    requires { a < most_atom_rows }
    ensures { result ≡ is_access work.now a }
{
    let k = tables::kind_of_atom(work, a);
    matches!(k, AtomKind::Read | AtomKind::Acc)
}

fn is_of(work: &Area, a: usize, x: usize, f: usize) -> bool
    requires { a < most_atom_rows }
    ensures { result ≡ is_of x f (access_at work.now a) }
{
    if tables::atom_variable(work, a) != x {
        return false;
    }
    tables::atom_field(work, a) == f
}

// Is the atom a `acc x f` or `read x f`?
fn is_access_of(work: &Area, a: usize, x: usize, f: usize) -> bool
    requires { a < most_atom_rows }
    ensures { result ≡ is_access work.now a && is_of x f (access_at work.now a) }
{
    if !is_access(work, a) {
        return false;
    }
    is_of(work, a, x, f)
}

// Is one of n atoms from `first` on `acc x f` or `read x f`?
fn has_access(work: &Area, first: usize, n: usize, x: usize, f: usize) -> bool
    requires { first + n ≤ most_atom_rows }
    ensures { result ≡ framed_expr (accesses work.now first n) (path x f) }
{
    for i in (0..n).rev() {
        if is_access_of(work, first + i, x, f) {
            return true;
        }
    }
    false
}

// A side of an atom, after n atoms from `first` on.
fn framed_side(work: &Area, first: usize, n: usize, e: Expr) -> bool
    requires { first + n ≤ most_atom_rows }
    ensures { result ≡ framed_expr (accesses work.now first n) (meaning e) }
{
    let Expr::Path(x, f) = e else {
        return true;
    };
    has_access(work, first, n, x, f)
}

// Both sides of the atom a.
fn framed_sides(work: &Area, first: usize, n: usize, a: usize) -> bool
    requires { (first + n ≤ most_atom_rows) × (a < most_atom_rows) }
    ensures { result ≡ sides_framed work.now (accesses work.now first n) a }
{
    if !framed_side(work, first, n, tables::left_at(work, a)) {
        return false;
    }
    framed_side(work, first, n, tables::right_at(work, a))
}

// The atom a, after n atoms from `first` on.
fn framed_atom(work: &Area, first: usize, n: usize, a: usize) -> bool
    requires { (first + n ≤ most_atom_rows) × (a < most_atom_rows) }
    ensures { result ≡ framed (accesses work.now first n) (atom_at work.now a ∷ []) }
{
    match tables::kind_of_atom(work, a) {
        AtomKind::Read | AtomKind::Acc | AtomKind::Chain => true,
        AtomKind::Eq | AtomKind::Ne => framed_sides(work, first, n, a),
    }
}

// Has each path of the formula of `count` atoms from `first` on an access before it?
fn framed(work: &Area, first: usize, count: usize) -> bool
    requires { first + count ≤ most_atom_rows }
    ensures { result ≡ framed [] (atoms_from work.now first count) }
{
    for i in 0..count {
        if !framed_atom(work, first, i, first + i) {
            return false;
        }
    }
    true
}

// The first of these atoms as a condition, and the others as the invariant before it.
fn framed_loop(work: &Area, first: usize, count: usize) -> bool
    requires { (1 ≤ count) × (first + count ≤ most_atom_rows) }
    ensures { result ≡ framed [] (atoms_from work.now (first + 1) (count - 1) ++ (atom_at work.now first ∷ [])) }
{
    let n = count - 1;
    if !framed(work, first + 1, n) {
        return false;
    }
    framed_atom(work, first + 1, n, first)
}

// Has each path of a line of this kind, with `count` atoms from `first` on, an access before it? Number 10 is about this.
pub fn framed_line(work: &Area, kind: Kind, first: usize, count: usize) -> bool
    requires { (number kind ≡ loop_kind → 1 ≤ count) × (first + count ≤ most_atom_rows) }
    ensures { result ≡ framed [] (framed_from work.now (number kind) first count) }
{
    if kind == Kind::Loop {
        return framed_loop(work, first, count);
    }
    framed(work, first, count)
}
