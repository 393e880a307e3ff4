// `call` and `new`: a frame more, and an object more.
#![tactic(auto)]

ghost use Rattle.std.specs.Prelude.{◌≡◌, ◌+◌, ◌*◌, ◌≤◌, ◌<◌, take};
ghost use Rattle.rules.specs.Limits.{most_statements, most_frames, heap_objects, heap_fields};
ghost use Rattle.rules.specs.Grammar.{New, Call};
ghost use Rattle.run_steps.specs.States.{CanStep, AtKind, Does, most_count, at_row};
ghost use Rattle.run_calls.specs.Calls.{Entering, Enters, Calling, Admits, called, larger, new_here, call_here};

use rules::Machine;
use run_footprint::Shares;
use run_heap::{Fault, Stores, View};
use run_steps::Turn;
use tables::{Area, Layout};

// One step more, in a call that holds by a new number.
fn call_in(c: Machine, row: u32) -> Machine
    requires { (c.steps < most_count) × ((c.frames < most_frames) × (c.holders < most_count)) }
    ensures { result ≡ called c row }
{
    Machine {
        objects: c.objects,
        fields: c.fields,
        frames: c.frames + 1,
        row: row,
        holder: c.holders + 1,
        holders: c.holders + 1,
        steps: c.steps + 1,
    }
}

// "the new frame's A is the footprint of requires": after it frames full.
fn enter(work: &mut Area, c: Machine, v: View, m: usize, shares: &Shares, n: usize) -> Turn
    requires { Entering work.old c v m shares.now n }
    ensures { Enters work.old c m (take n shares.now) work.new result }
{
    if Machine::FRAMES as u32 <= c.frames {
        return Err(Fault::FramesFull);
    }
    let row = tables::first_row_at(work, m);
    run_footprint::mark(work, v, shares, n, c.holders + 1);
    Ok(Some(call_in(c, row as u32)))
}

// Requires, over the values in the next frame's place and what the running frame holds.
fn admit(work: &mut Area, c: Machine, m: usize) -> Turn
    requires { Calling work.old c m }
    ensures { Admits work.old c m work.new result }
{
    let j = c.frames as usize;
    let v = View {
        base: Layout::FRAMES + j * Layout::FRAME_BYTES,
        objects: c.objects as usize,
        holder: c.holder,
    };
    let first = tables::requires_first(work, m);
    let n = tables::requires_count(work, m);
    let mut shares = [0usize; run_footprint::SHARES];
    let k = run_footprint::footprint(work, v, first, n, &mut shares)?;
    enter(work, c, v, m, &shares, k)
}

// `call`: "null receiver, then requires, then frames full".
pub fn call_step(work: &mut Area, c: Machine) -> Turn
    requires { CanStep work.old c × AtKind work.old c Call }
    ensures { Does work.old c work.new result (call_here work.old c) }
{
    let row = c.row as usize;
    let v = run_heap::view_of(c);
    let b = v.base;
    let y = tables::y_at(work, row);
    let o = run_heap::variable(work, b, y);
    if o == 0 {
        return Err(Fault::Null);
    }
    let z = tables::z_at(work, row);
    let p = run_heap::variable(work, b, z);
    let m = tables::member_at(work, row);
    run_heap::prepare(work, c, m, o, p);
    admit(work, c, m)
}

// One step more, with an object of n fields more.
fn grow(c: Machine, n: u32) -> Machine
    requires { (c.steps < most_count) × ((c.objects < heap_objects) × ((c.fields + n ≤ heap_fields) × (c.row < most_statements))) }
    ensures { result ≡ at_row (larger c n c.steps) (c.row + 1) (c.steps + 1) }
{
    Machine {
        objects: c.objects + 1,
        fields: c.fields + n,
        frames: c.frames,
        row: c.row + 1,
        holder: c.holder,
        holders: c.holders,
        steps: c.steps + 1,
    }
}

// `new`: "22 only where `new` would pass 256 objects or 1,024 fields", the heap's two limits.
pub fn new_step(work: &mut Area, c: Machine, most_objects: u32, most_fields: u32) -> Turn
    requires { (CanStep work.old c × AtKind work.old c New) × ((most_objects ≤ heap_objects) × (most_fields ≤ heap_fields)) }
    ensures { Does work.old c work.new result (new_here work.old c (record { objects = most_objects; fields = most_fields })) }
{
    let row = c.row as usize;
    let class = tables::member_at(work, row);
    let n = tables::field_count_at(work, class);
    if most_objects <= c.objects {
        return Err(Fault::HeapFull);
    }
    let fields = c.fields + n as u32;
    if most_fields < fields {
        return Err(Fault::HeapFull);
    }
    let v = run_heap::view_of(c);
    let b = v.base;
    let x = tables::x_at(work, row);
    run_heap::make_object(work, c, class, n);
    tables::put_word(work, b + x * Stores::WORD_BYTES, c.objects + 1);
    Ok(Some(grow(c, n as u32)))
}
