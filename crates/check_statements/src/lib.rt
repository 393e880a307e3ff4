// The rule of each statement.
#![tactic(auto)]

mod branches;
mod chains;
mod objects;

ghost use Rattle.std.specs.Prelude.{◌+◌, ◌≤◌, ◌<◌};
ghost use Rattle.rules.specs.Rules.{set_rule, add_equal, assign_rule, call_rule, return_rule, show_end};
ghost use Rattle.tables.specs.Layout.{most_atom_rows};
ghost use Rattle.tables.specs.Decode.{method_at, method_count, atoms_from};
ghost use Rattle.tables.specs.Tables.{Tables};
ghost use Rattle.check_equality.specs.Keys.{term_of, meaning};
ghost use Rattle.check_state.specs.States.{state_of};
ghost use Rattle.check_successors.specs.Successors.{term_or};
ghost use Rattle.check_entailment.specs.Answers.{Adds};
ghost use Rattle.check_statements.specs.Statements.{assign_term, call_shown, object_shown, Says, Asserts, end_of, release_rule};

pub use branches::{if_rule, join_rule, loop_rule};
pub use chains::{open_rule, shut_rule};
use check_entailment::Refusal;
use check_equality::{State, Term};
use check_state::Known;
pub use objects::new_rule;
use tables::Area;

// `set x f y`: the old value of the path that shows `acc x f`, by both halves, is dropped, and the path is y.
pub fn set_rule(known: &mut Known, x: u8, f: u8, y: u8) -> Result<(), Refusal>
    ensures { Adds (set_rule x f y (state_of known.old.keys known.old.bytes)) result known.new.keys known.new.bytes }
{
    let v = check_equality::variable_key(x);
    let i = check_state::listed_entry(known, State::ACC, State::ACC, v, f);
    if i < (known.bytes[State::ENTRIES] as usize) {
        let path = check_equality::path_key(
            known.bytes[State::VARIABLES + i],
            known.bytes[State::FIELDS + i],
        );
        check_forgetting::without_path(known, i, path);
        return check_entailment::add_fact(known, false, path, check_equality::variable_key(y));
    }
    Err(Refusal::NoPermission)
}

// x = k, where the term is left.
fn add_equal(known: &mut Known, x: u8, k: Option<u64>) -> Result<(), Refusal>
    ensures { Adds (add_equal x (term_or k) (state_of known.old.keys known.old.bytes)) result known.new.keys known.new.bytes }
{
    match k {
        Some(t) => check_entailment::add_fact(known, false, check_equality::variable_key(x), t),
        None => Ok(()),
    }
}

// `let x e`, where e resolves to the term of k.
fn assign_key(known: &mut Known, x: u8, k: u64) -> Result<(), Refusal>
    ensures { Adds (assign_term x (term_of k) (state_of known.old.keys known.old.bytes)) result known.new.keys known.new.bytes }
{
    if k == check_equality::variable_key(x) {
        return Ok(());
    }
    let to = check_state::stand_in(known, x);
    let r = check_forgetting::removed(known, k, x, to);
    check_forgetting::remove_to(known, x, to);
    add_equal(known, x, r)
}

// `let x e`
pub fn assign_rule(known: &mut Known, x: u8, e: Term) -> Result<(), Refusal>
    ensures { Adds (assign_rule x (meaning e) (state_of known.old.keys known.old.bytes)) result known.new.keys known.new.bytes }
{
    let k = check_state::resolve(known, e).ok_or(Refusal::Unresolved)?;
    assign_key(known, x, k)
}

// `assert`: the formula is shown, and the state stays.
pub fn assert_rule(w: &Area, known: &Known, a: usize, n: usize) -> Result<(), Refusal>
    requires { a + n ≤ most_atom_rows }
    ensures { Asserts (atoms_from w.now a n) (state_of known.now.keys known.now.bytes) result }
{
    let mut left = check_state::kinds(&known.bytes);
    check_formulas::show(
        w,
        a,
        n,
        State::THIS,
        State::PARAM,
        State::RESULT,
        known,
        &mut left,
    )
}

// The end of a part or a block shows the formula, but after a `return` nothing.
pub fn show_end(w: &Area, a: usize, n: usize, returned: bool, known: &Known) -> Result<(), Refusal>
    requires { a + n ≤ most_atom_rows }
    ensures { Says (show_end (atoms_from w.now a n) (end_of returned (state_of known.now.keys known.now.bytes))) result }
{
    if returned {
        return Ok(());
    }
    assert_rule(w, known, a, n)
}

// `return x`: `let result x`, and then the formula of ensures is shown.
pub fn return_rule(w: &Area, known: &mut Known, x: u8, a: usize, n: usize) -> Result<(), Refusal>
    requires { a + n ≤ most_atom_rows }
    ensures { Says (return_rule x (atoms_from w.now a n) (state_of known.old.keys known.old.bytes)) result }
{
    assign_rule(known, State::RESULT, Term::Var(x))?;
    assert_rule(w, known, a, n)
}

// `release`: the formula is shown, and the remainder is left.
pub fn release_rule(w: &Area, known: &mut Known, a: usize, n: usize) -> Result<(), Refusal>
    requires { a + n ≤ most_atom_rows }
    ensures { Adds (release_rule (atoms_from w.now a n) (state_of known.old.keys known.old.bytes)) result known.new.keys known.new.bytes }
{
    let mut left = check_state::kinds(&known.bytes);
    check_formulas::show(
        w,
        a,
        n,
        State::THIS,
        State::PARAM,
        State::RESULT,
        known,
        &mut left,
    )?;
    check_forgetting::remainder(known, &left);
    Ok(())
}

// y ≠ null is shown.
fn object(known: &Known, y: u8) -> Result<(), Refusal>
    ensures { Says (object_shown y (state_of known.now.keys known.now.bytes)) result }
{
    let v = check_equality::variable_key(y);
    if check_inequality::holds(known, true, v, State::NULL_KEY) {
        return Ok(());
    }
    Err(Refusal::NotShown)
}

// `call x y m z`, where y ≠ null is shown.
fn call_shown(w: &Area, known: &mut Known, x: u8, y: u8, m: usize, z: u8) -> Result<(), Refusal>
    requires { Tables w.now × (m < method_count w.now) }
    ensures { Adds (call_shown x y (method_at w.now m) z (state_of known.old.keys known.old.bytes)) result known.new.keys known.new.bytes }
{
    let a = tables::requires_first(w, m);
    let n = tables::requires_count(w, m);
    let mut left = check_state::kinds(&known.bytes);
    check_formulas::show(w, a, n, y, z, x, known, &mut left)?;
    check_forgetting::remainder(known, &left);
    check_forgetting::remove(known, x);
    let c = tables::ensures_first(w, m);
    let o = tables::ensures_count(w, m);
    check_formulas::add(w, c, o, y, z, x, known)
}

// `call x y m z`
pub fn call_rule(w: &Area, known: &mut Known, x: u8, y: u8, m: usize, z: u8) -> Result<(), Refusal>
    requires { Tables w.now × (m < method_count w.now) }
    ensures { Adds (call_rule x y (method_at w.now m) z (state_of known.old.keys known.old.bytes)) result known.new.keys known.new.bytes }
{
    object(known, y)?;
    call_shown(w, known, x, y, m, z)
}
