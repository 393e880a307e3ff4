// `end` and `return`: back to the caller.
#![tactic(auto)]

ghost use Rattle.std.specs.Prelude.{◌≡◌, ◌+◌, ◌*◌, ◌-◌, ◌≤◌, ◌<◌};
ghost use Rattle.run_steps.specs.States.{CanStep, Does, most_count};
ghost use Rattle.rules.specs.Limits.{most_statements};
ghost use Rattle.run_returns.specs.Returns.{Leaving, back, source_of, back_here, end_here};

use rules::{Kind, Machine};
use run_footprint::Shares;
use run_heap::Stores;
use run_steps::Turn;
use tables::{Area, Layout};

// One step more, back in the caller.
fn back_in(c: Machine, holder: u32, row: u32) -> Machine
    requires { (c.steps < most_count) × (1 ≤ c.frames) }
    ensures { result ≡ back c holder row }
{
    Machine {
        objects: c.objects,
        fields: c.fields,
        frames: c.frames - 1,
        row: row,
        holder: holder,
        holders: c.holders,
        steps: c.steps + 1,
    }
}

// The caller goes on with the shares that ensures took, and its x is the result.
fn leave(work: &mut Area, c: Machine, shares: &Shares, n: usize) -> Turn
    requires { Leaving work.old c shares.now n }
    ensures { Does work.old c work.new result (end_here work.old) }
{
    let i = (c.frames - 2) as usize;
    let at = Layout::FRAMES + i * Layout::FRAME_BYTES;
    let holder = run_heap::saved_holder(work, i);
    let row = run_heap::saved_row(work, i);
    let result = run_heap::variable(work, at + Layout::FRAME_BYTES, Stores::RESULT);
    let x = tables::x_at(work, row);
    run_footprint::mark(work, run_heap::view_of(c), shares, n, holder);
    tables::put_word(work, at + x * Stores::WORD_BYTES, result);
    Ok(Some(back_in(c, holder, row as u32 + 1)))
}

// `end`: "ensures, then the caller gains its footprint, and x the result; the rest of that A is lost".
fn end_step(work: &mut Area, c: Machine) -> Turn
    requires { CanStep work.old c }
    ensures { Does work.old c work.new result (end_here work.old) }
{
    if c.frames == 1 {
        return Ok(None);
    }
    let i = (c.frames - 1) as usize;
    let v = run_heap::view_of(c);
    let m = run_heap::method_of(work, i);
    let first = tables::ensures_first(work, m);
    let n = tables::ensures_count(work, m);
    let mut shares = [0usize; run_footprint::SHARES];
    let k = run_footprint::footprint(work, v, first, n, &mut shares)?;
    leave(work, c, &shares, k)
}

// The variable that is the result: of a `return` its x, of an `end` the result as it is.
pub fn source(work: &Area, row: usize) -> usize
    requires { row < most_statements }
    ensures { result ≡ source_of work.now row }
{
    // By its number: no more is asked of the row than where it stands.
    if tables::kind_at(work, row) == Kind::End as u8 {
        return Stores::RESULT;
    }
    tables::x_at(work, row)
}

// `return`: "sets the result, tests ensures and goes back to the caller in one step"; and `end`, for which the result stays. Where it
// does not go back, the old result is put back. One function for both, since the compiler puts a function into its only caller.
pub fn back_step(work: &mut Area, c: Machine) -> Turn
    requires { CanStep work.old c }
    ensures { Does work.old c work.new result (back_here work.old c) }
{
    let row = c.row as usize;
    let v = run_heap::view_of(c);
    let b = v.base;
    let old = run_heap::variable(work, b, Stores::RESULT);
    let x = source(work, row);
    let n = run_heap::variable(work, b, x);
    tables::put_word(work, b + Stores::RESULT_AT, n);
    match end_step(work, c) {
        Ok(Some(d)) => Ok(Some(d)),
        Ok(None) => {
            tables::put_word(work, b + Stores::RESULT_AT, old);
            Ok(None)
        }
        Err(s) => {
            tables::put_word(work, b + Stores::RESULT_AT, old);
            Err(s)
        }
    }
}
