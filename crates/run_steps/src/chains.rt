// W9: `open` and `shut`.
ghost use Rattle.rules.specs.Grammar.{Open, Shut};
ghost use Rattle.run_steps.specs.States.{CanStep, AtKind, Does, Opening, Shutting, Walked, open_here, shut_here};

use crate::{Turn, next};
use rules::Machine;
use run_heap::{Fault, Stores};
use tables::Area;

// Where the location of `x.f`, the cell k, is held whole: the walk goes on from its value, which y gets.
fn open_on(work: &mut Area, c: Machine, f: usize, k: usize) -> Turn
    requires { Opening work.old c f k }
    ensures { Does work.old c work.new result (open_here work.old c) }
{
    let row = c.row as usize;
    let v = run_heap::view_of(c);
    let b = v.base;
    let n = run_heap::cell_value(work, k);
    run_heap::walk(work, v, f, n)?;
    let y = tables::x_at(work, row);
    tables::put_word(work, b + y * Stores::WORD_BYTES, n);
    Ok(Some(next(c, c.row + 1)))
}

// `open y x f`: "takes x ≠ null and `chain x f`; y becomes `x.f`"; "x null is 25".
pub fn open_step(work: &mut Area, c: Machine) -> Turn
    requires { CanStep work.old c × AtKind work.old c Open }
    ensures { Does work.old c work.new result (open_here work.old c) }
{
    let row = c.row as usize;
    let v = run_heap::view_of(c);
    let x = tables::y_at(work, row);
    let f = tables::member_at(work, row);
    let k = run_heap::locate(work, v, Stores::WHOLE, x, f)?;
    open_on(work, c, f, k)
}

// Where the chain of the value of `x.f`, the cell k, is held: then all of the cell. The chain does not pass it: from there it would come to its own
// start again.
fn shut_whole(work: &Area, c: Machine, k: usize) -> Turn
    requires { Walked work.now c k }
    ensures { Does work.now c work.now result (shut_here work.now c) }
{
    if run_heap::halves_held(work, c.holder, k) < Stores::WHOLE {
        return Err(Fault::Permission);
    }
    Ok(Some(next(c, c.row + 1)))
}

// Where half of the location of `x.f`, the cell k, is held: the chain from its value.
fn shut_on(work: &Area, c: Machine, f: usize, k: usize) -> Turn
    requires { Shutting work.now c f k }
    ensures { Does work.now c work.now result (shut_here work.now c) }
{
    let v = run_heap::view_of(c);
    run_heap::walk(work, v, f, run_heap::cell_value(work, k))?;
    shut_whole(work, c, k)
}

// `shut x f`: "takes a chain of the value of `x.f` .. then the whole permission to `x.f`".
// Not one with `open_step`: the column of x, the halves that are asked for and what comes after differ, and one call is left.
pub fn shut_step(work: &Area, c: Machine) -> Turn
    requires { CanStep work.now c × AtKind work.now c Shut }
    ensures { Does work.now c work.now result (shut_here work.now c) }
{
    let row = c.row as usize;
    let v = run_heap::view_of(c);
    let x = tables::x_at(work, row);
    let f = tables::member_at(work, row);
    let k = run_heap::locate(work, v, Stores::HALF, x, f)?;
    shut_on(work, c, f, k)
}
