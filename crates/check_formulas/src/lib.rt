// Formulas of the tables shown and added, also with a call's actual names.
#![tactic(auto)]

ghost use Rattle.std.specs.Prelude.{◌≡◌, false, MatchOption, ◌+◌, ◌≤◌, ◌<◌};
ghost use Rattle.rules.specs.Limits.{most_permissions};
ghost use Rattle.rules.specs.State as Rules;
ghost use Rattle.rules.specs.Rules.{subst_term};
ghost use Rattle.rules.specs.Rules as Rule;
ghost use Rattle.tables.specs.Layout.{most_atom_rows, atom_bytes};
ghost use Rattle.tables.specs.Decode.{byte_at, expr_at, left_at, right_at, atom_place, is_permission};
ghost use Rattle.tables.specs.Kinds.{kind_number};
ghost use Rattle.check_equality.specs.Keys.{meaning};
ghost use Rattle.check_state.specs.States.{state_of, kind_at};
ghost use Rattle.check_state.specs.Questions.{Bytes};
ghost use Rattle.check_entries.specs.Entries.{LeftFits};
ghost use Rattle.check_entailment.specs.Answers.{Adds, ShowsAtom, AddsAtom};
ghost use Rattle.check_formulas.specs.Formulas.{side_bytes, formula, actual_atom, EntryKind, Shows};

use check_entailment::Refusal;
use check_equality::{State, Term};
use check_state::Known;
use rules::Machine;
use tables::{Area, AtomAt, AtomKind, Layout, SideTag};

// The variable v of a formula, with y, z and x for `this`, w and `result`.
#[tactic(auto, unfolding(rules::specs::Rules::actual))]
fn actual(y: u8, z: u8, x: u8, v: u8) -> u8
    ensures { result ≡ Rule.actual y z x v }
{
    match v {
        State::THIS => y,
        State::PARAM => z,
        State::RESULT => x,
        _ => v,
    }
}

// The side of the atom a that stands at `first` in it, and its tag at `tag`.
#[tactic(auto, unfolding(check_equality::specs::Keys::meaning, rules::specs::Rules::subst_term, tables::specs::Decode::expr_at, tables::specs::Kinds::side_of))]
fn side(w: &Area, a: usize, tag: usize, first: usize, y: u8, z: u8, x: u8) -> Term
    requires { (a < most_atom_rows) × (tag < atom_bytes) × (first + side_bytes ≤ atom_bytes) }
    ensures { meaning result ≡ subst_term (Rule.actual y z x) (expr_at w.now (byte_at w.now (atom_place a + tag)) (atom_place a + first)) }
{
    let at = Layout::ATOMS + a * Layout::ATOM_BYTES;
    let i = at + first;
    match SideTag::from(w[at + tag]) {
        SideTag::Num => Term::Num(tables::word_at(w, i)),
        SideTag::Null => Term::Null,
        SideTag::Var => Term::Var(actual(y, z, x, w[i])),
        SideTag::Path => Term::Path(actual(y, z, x, w[i]), w[i + 1]),
    }
}

// The left side of the atom a.
#[tactic(auto, unfolding(tables::specs::Decode::left_at))]
pub fn left(w: &Area, a: usize, y: u8, z: u8, x: u8) -> Term
    requires { a < most_atom_rows }
    ensures { meaning result ≡ subst_term (Rule.actual y z x) (left_at w.now a) }
{
    side(w, a, AtomAt::LEFT_TAG, AtomAt::LEFT, y, z, x)
}

// The right side of the atom a.
#[tactic(auto, unfolding(tables::specs::Decode::right_at))]
pub fn right(w: &Area, a: usize, y: u8, z: u8, x: u8) -> Term
    requires { a < most_atom_rows }
    ensures { meaning result ≡ subst_term (Rule.actual y z x) (right_at w.now a) }
{
    side(w, a, AtomAt::RIGHT_TAG, AtomAt::RIGHT, y, z, x)
}

// The kind of the entries that a permission makes, a byte of the state (`IsKind`) and so no enum; a comparison makes none.
#[tactic(auto, unfolding(check_state::specs::States::permit_of, tables::specs::Decode::permit_of, tables::specs::Decode::is_permission))]
fn entry_kind(k: AtomKind) -> Option<u8>
    ensures { MatchOption result (is_permission (kind_number k) ≡ false) (EntryKind (kind_number k)) }
{
    match k {
        AtomKind::Read => Some(State::READ),
        AtomKind::Acc => Some(State::ACC),
        AtomKind::Chain => Some(State::CHAIN),
        AtomKind::Eq | AtomKind::Ne => None,
    }
}

// Shows the atom a, by what is left of the entries.
fn show_at(
    w: &Area,
    a: usize,
    y: u8,
    z: u8,
    x: u8,
    known: &Known,
    left: &mut [u8; Machine::PERMISSIONS],
) -> Result<(), Refusal>
    requires { (a < most_atom_rows) × LeftFits known.now.bytes left.old }
    ensures { LeftFits known.now.bytes left.new × ShowsAtom known.now.keys known.now.bytes left.old (actual_atom w.now y z x a) result left.new }
{
    let k = tables::kind_of_atom(w, a);
    match entry_kind(k) {
        Some(kind) => {
            let v = actual(y, z, x, tables::atom_variable(w, a) as u8);
            check_entailment::show_access(known, left, kind, v, tables::atom_field(w, a) as u8)
        }
        None => {
            let l = crate::left(w, a, y, z, x);
            check_entailment::show_relation(known, k != AtomKind::Eq, l, right(w, a, y, z, x))
        }
    }
}

// Shows n atoms from the atom a on. `left` has the kinds of the entries, and what is left of each then.
pub fn show(
    w: &Area,
    a: usize,
    n: usize,
    y: u8,
    z: u8,
    x: u8,
    known: &Known,
    left: &mut [u8; Machine::PERMISSIONS],
) -> Result<(), Refusal>
    requires { (a + n ≤ most_atom_rows) × Bytes (kind_at known.now.bytes) most_permissions left.old }
    ensures { LeftFits known.now.bytes left.new × Shows known.now.keys known.now.bytes (formula w.now y z x a n) result left.new }
{
    for i in 0..n {
        show_at(w, a + i, y, z, x, known, left)?;
    }
    Ok(())
}

// Adds the atom a.
fn add_at(w: &Area, a: usize, y: u8, z: u8, x: u8, known: &mut Known) -> Result<(), Refusal>
    requires { a < most_atom_rows }
    ensures { AddsAtom known.old.keys known.old.bytes (actual_atom w.now y z x a) result known.new.keys known.new.bytes }
{
    let k = tables::kind_of_atom(w, a);
    match entry_kind(k) {
        Some(kind) => {
            let v = actual(y, z, x, tables::atom_variable(w, a) as u8);
            check_entailment::add_own(known, kind, v, tables::atom_field(w, a) as u8)
        }
        None => {
            let l = left(w, a, y, z, x);
            check_entailment::add_relation(known, k != AtomKind::Eq, l, right(w, a, y, z, x))
        }
    }
}

// Adds n atoms from the atom a on.
pub fn add(
    w: &Area,
    a: usize,
    n: usize,
    y: u8,
    z: u8,
    x: u8,
    known: &mut Known,
) -> Result<(), Refusal>
    requires { a + n ≤ most_atom_rows }
    ensures { Adds (Rules.add (formula w.now y z x a n) (state_of known.old.keys known.old.bytes)) result known.new.keys known.new.bytes }
{
    for i in 0..n {
        add_at(w, a + i, y, z, x, known)?;
    }
    Ok(())
}
