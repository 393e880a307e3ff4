// The lean machine's steps that stay in their frame. No formula is evaluated, and no null, object or permission is tested.
#![tactic(auto)]

ghost use Rattle.std.specs.Prelude.{◌≡◌, ◌≤◌, ◌<◌, T};
ghost use Rattle.rules.specs.Limits.{most_statements};
ghost use Rattle.rules.specs.Grammar.{Set, Let, Open, IsStatementNumber, loop_kind, is_computing};
ghost use Rattle.tables.specs.Decode.{kind_at, first_atom_at};
ghost use Rattle.lean_heap.specs.Ghosts.{CanStep, AtKind, Does};
ghost use Rattle.lean_steps.specs.Rows.{Passes, Jumps, Chooses, condition_of};

use lean_heap::{Counters, Stop, Turn};
use rules::Kind;
use run_heap::Stores;
use tables::{Area, Layout};

// `assert`, `join`, `release` and `shut`: on to the next line.
pub fn pass_step(work: &Area, c: Counters) -> Turn
    requires { CanStep work.now c × Passes work.now c }
    ensures { Does work.now c work.now result }
{
    Ok(Some(lean_heap::next(c, c.row + 1)))
}

// `else`, "on to its `join`", and `again`, "a step back to" its `loop`.
pub fn jump_step(work: &Area, c: Counters) -> Turn
    requires { CanStep work.now c × Jumps work.now c }
    ensures { Does work.now c work.now result }
{
    let row = c.row as usize;
    Ok(Some(lean_heap::next(c, tables::target_at(work, row) as u32)))
}

// The condition: of an `if` its atom, of a `loop` the one before its invariant.
fn condition_at(work: &Area, row: usize) -> usize
    requires { ((row < most_statements) × IsStatementNumber (kind_at work.now row)) × (kind_at work.now row ≡ loop_kind → 1 ≤ first_atom_at work.now row) }
    ensures { result ≡ condition_of work.now row }
{
    let a = tables::first_atom_at(work, row);
    if tables::row_kind(work, row) == Kind::Loop {
        return a - 1;
    }
    a
}

// `if` and `loop`: on to the next row where the condition holds, and else to the row's target. One function for both, since the compiler puts
// a function into its only caller.
pub fn choose_step(work: &Area, c: Counters) -> Turn
    requires { CanStep work.now c × Chooses work.now c }
    ensures { Does work.now c work.now result }
{
    let row = c.row as usize;
    let b = lean_heap::base_of(c);
    let a = condition_at(work, row);
    let l = lean_heap::value(work, b, tables::left_at(work, a));
    let r = lean_heap::value(work, b, tables::right_at(work, a));
    if run_footprint::compare(tables::kind_of_atom(work, a), l, r) {
        return Ok(Some(lean_heap::next(c, c.row + 1)));
    }
    Ok(Some(lean_heap::next(c, tables::target_at(work, row) as u32)))
}

// `let`.
pub fn let_step(work: &mut Area, c: Counters) -> Turn
    requires { CanStep work.old c × AtKind work.old c Let }
    ensures { Does work.old c work.new result }
{
    let row = c.row as usize;
    let b = lean_heap::base_of(c);
    let a = tables::first_atom_at(work, row);
    let n = lean_heap::value(work, b, tables::right_at(work, a));
    let x = tables::x_at(work, row);
    tables::put_word(work, b + x * Stores::WORD_BYTES, n);
    Ok(Some(lean_heap::next(c, c.row + 1)))
}

// `open y x f`: "y becomes `x.f`".
pub fn open_step(work: &mut Area, c: Counters) -> Turn
    requires { CanStep work.old c × AtKind work.old c Open }
    ensures { Does work.old c work.new result }
{
    let row = c.row as usize;
    let b = lean_heap::base_of(c);
    let x = tables::y_at(work, row);
    let f = tables::member_at(work, row);
    let n = lean_heap::path_value(work, b, x, f);
    let y = tables::x_at(work, row);
    tables::put_word(work, b + y * Stores::WORD_BYTES, n);
    Ok(Some(lean_heap::next(c, c.row + 1)))
}

// `add` and `sub`, by the kind of the row. The caller names the kind, so that the compiler makes one step for each.
pub fn compute_step(work: &mut Area, c: Counters, kind: u8) -> Turn
    requires { CanStep work.old c × ((kind ≡ kind_at work.old c.row) × T (is_computing kind)) }
    ensures { Does work.old c work.new result }
{
    let row = c.row as usize;
    let b = lean_heap::base_of(c);
    let y = run_heap::variable(work, b, tables::y_at(work, row));
    let z = run_heap::variable(work, b, tables::z_at(work, row));
    let n = run_numbers::compute(kind, y, z).ok_or(Stop::Overflow)?;
    let x = tables::x_at(work, row);
    tables::put_word(work, b + x * Stores::WORD_BYTES, n);
    Ok(Some(lean_heap::next(c, c.row + 1)))
}

// `set`.
pub fn set_step(work: &mut Area, c: Counters) -> Turn
    requires { CanStep work.old c × AtKind work.old c Set }
    ensures { Does work.old c work.new result }
{
    let row = c.row as usize;
    let b = lean_heap::base_of(c);
    let x = tables::x_at(work, row);
    let f = tables::member_at(work, row);
    let o = run_heap::variable(work, b, x);
    let k = lean_heap::cell_of(work, o, f);
    let y = tables::y_at(work, row);
    let n = run_heap::variable(work, b, y);
    tables::put_word(work, Layout::VALUES + k * Stores::WORD_BYTES, n);
    Ok(Some(lean_heap::next(c, c.row + 1)))
}
