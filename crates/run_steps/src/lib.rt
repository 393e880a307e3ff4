// Which state the stores stand for; the steps that stay in their frame. `open` and `shut` are in `chains`, how a run ends in `ends`.
#![tactic(auto)]

mod chains;
mod ends;

ghost use Rattle.std.specs.Prelude.{◌≡◌, [], ◌+◌, ◌*◌, ◌<◌, T};
ghost use Rattle.rules.specs.Grammar.{Set, Let, If, Loop, is_computing};
ghost use Rattle.tables.specs.Decode.{kind_at, formula_at, atom_count};
ghost use Rattle.run_steps.specs.States.{CanStep, NotEnd, AtKind, Chooses, Jumps, Does, most_count, stepped, set_here, let_here, compute_here, assert_here, release_here, if_on, if_here, loop_here, jump_here};
ghost use Rattle.run_heap.specs.Views.{view_of};
ghost use Rattle.run_footprint.specs.Footprints.{take_in, footprint_shares, TookUpTo};

pub use chains::{open_step, shut_step};
pub use ends::{Ending, Ran, ended};
use rules::Machine;
use run_footprint::Shares;
use run_heap::{Fault, Stores};
use tables::{Area, Layout};

// The number of no frame: what is released goes to it.
const NOBODY: u32 = 0;

// What became of a step: on to the next, or none after main's `end`; or why it is not done.
pub type Turn = Result<Option<Machine>, Fault>;

// One step more, on to a row.
fn next(c: Machine, row: u32) -> Machine
    requires { c.steps < most_count }
    ensures { result ≡ stepped c row }
{
    Machine {
        objects: c.objects,
        fields: c.fields,
        frames: c.frames,
        row: row,
        holder: c.holder,
        holders: c.holders,
        steps: c.steps + 1,
    }
}

// What the formula of the row takes.
fn row_footprint(work: &Area, c: Machine, shares: &mut Shares) -> Result<usize, Fault>
    requires { CanStep work.now c }
    ensures { TookUpTo result shares.new footprint_shares (take_in work.now (view_of c) (formula_at work.now c.row) []) }
{
    let row = c.row as usize;
    let v = run_heap::view_of(c);
    let first = tables::first_atom_at(work, row);
    let n = tables::atom_count_at(work, row);
    run_footprint::footprint(work, v, first, n, shares)
}

// `assert` and `join`.
pub fn assert_step(work: &Area, c: Machine) -> Turn
    requires { CanStep work.now c × NotEnd work.now c }
    ensures { Does work.now c work.now result (assert_here work.now c) }
{
    let mut shares = [0usize; run_footprint::SHARES];
    row_footprint(work, c, &mut shares)?;
    Ok(Some(next(c, c.row + 1)))
}

// `release`.
pub fn release_step(work: &mut Area, c: Machine) -> Turn
    requires { CanStep work.old c × NotEnd work.old c }
    ensures { Does work.old c work.new result (release_here work.old c) }
{
    let mut shares = [0usize; run_footprint::SHARES];
    let n = row_footprint(work, c, &mut shares)?;
    run_footprint::mark(work, run_heap::view_of(c), &shares, n, NOBODY);
    Ok(Some(next(c, c.row + 1)))
}

// On to the next row where the condition, the atom a, holds, and else to the row's target.
fn choose(work: &Area, c: Machine, a: usize) -> Turn
    requires { CanStep work.now c × Chooses work.now c × (a < atom_count work.now) }
    ensures { Does work.now c work.now result (if_on work.now a) }
{
    let row = c.row as usize;
    let holds = run_footprint::condition(work, run_heap::view_of(c), a)?;
    if holds {
        return Ok(Some(next(c, c.row + 1)));
    }
    Ok(Some(next(c, tables::target_at(work, row) as u32)))
}

// `if`: "a false `if` goes to the line after its `else`".
pub fn if_step(work: &Area, c: Machine) -> Turn
    requires { CanStep work.now c × AtKind work.now c If }
    ensures { Does work.now c work.now result (if_here work.now c) }
{
    let row = c.row as usize;
    choose(work, c, tables::first_atom_at(work, row))
}

// `loop`: "tests the invariant, then the condition", which is the atom before it, "and if that is false goes on after `again`".
pub fn loop_step(work: &Area, c: Machine) -> Turn
    requires { CanStep work.now c × AtKind work.now c Loop }
    ensures { Does work.now c work.now result (loop_here work.now c) }
{
    let row = c.row as usize;
    let mut shares = [0usize; run_footprint::SHARES];
    row_footprint(work, c, &mut shares)?;
    choose(work, c, tables::first_atom_at(work, row) - 1)
}

// `else`, "on to its `join`", and `again`, "a step back to" its `loop`.
pub fn jump_step(work: &Area, c: Machine) -> Turn
    requires { CanStep work.now c × Jumps work.now c }
    ensures { Does work.now c work.now result (jump_here work.now c) }
{
    let row = c.row as usize;
    Ok(Some(next(c, tables::target_at(work, row) as u32)))
}

// `let`.
pub fn let_step(work: &mut Area, c: Machine) -> Turn
    requires { CanStep work.old c × AtKind work.old c Let }
    ensures { Does work.old c work.new result (let_here work.old c) }
{
    let row = c.row as usize;
    let v = run_heap::view_of(c);
    let b = v.base;
    let a = tables::first_atom_at(work, row);
    let n = run_heap::right(work, v, a)?;
    let x = tables::x_at(work, row);
    tables::put_word(work, b + x * Stores::WORD_BYTES, n);
    Ok(Some(next(c, c.row + 1)))
}

// `add` and `sub`.
pub fn compute_step(work: &mut Area, c: Machine) -> Turn
    requires { CanStep work.old c × T (is_computing (kind_at work.old c.row)) }
    ensures { Does work.old c work.new result (compute_here work.old c) }
{
    let row = c.row as usize;
    let v = run_heap::view_of(c);
    let b = v.base;
    let y = run_heap::variable(work, b, tables::y_at(work, row));
    let z = run_heap::variable(work, b, tables::z_at(work, row));
    let n = run_numbers::compute(tables::kind_at(work, row), y, z).ok_or(Fault::Overflow)?;
    let x = tables::x_at(work, row);
    tables::put_word(work, b + x * Stores::WORD_BYTES, n);
    Ok(Some(next(c, c.row + 1)))
}

// `set`: "first tests `acc x f`"; W8: "Reading needs one half, `set` both."
pub fn set_step(work: &mut Area, c: Machine) -> Turn
    requires { CanStep work.old c × AtKind work.old c Set }
    ensures { Does work.old c work.new result (set_here work.old c) }
{
    let row = c.row as usize;
    let v = run_heap::view_of(c);
    let b = v.base;
    let x = tables::x_at(work, row);
    let f = tables::member_at(work, row);
    let k = run_heap::locate(work, v, Stores::WHOLE, x, f)?;
    let y = tables::y_at(work, row);
    let n = run_heap::variable(work, b, y);
    tables::put_word(work, Layout::VALUES + k * Stores::WORD_BYTES, n);
    Ok(Some(next(c, c.row + 1)))
}
