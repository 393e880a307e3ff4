// `call`, `return`, `end` and `new` of the lean machine: a frame more, a frame less, an object more; formulas are not read.
#![tactic(auto)]

ghost use Rattle.std.specs.Prelude.{◌⊎◌, ◌≡◌, ◌+◌, ◌*◌, ◌≤◌, ◌<◌};
ghost use Rattle.rules.specs.Limits.{work_bytes, most_statements, most_classes, most_frames, heap_objects, heap_fields};
ghost use Rattle.rules.specs.Grammar.{New, Call, Return, End};
ghost use Rattle.tables.specs.Layout.{frame_bytes};
ghost use Rattle.run_steps.specs.States.{most_count};
ghost use Rattle.lean_heap.specs.Ghosts.{CanStep, AtKind, Does};
ghost use Rattle.lean_calls.specs.Calls.{called, back, larger, framed, made};

use lean_heap::{Counters, Stop, Turn};
use rules::Machine;
use run_heap::Stores;
use tables::{Area, Layout};

// The place of the next frame, after that at a, and the row that this one must keep.
#[tactic(auto, unfolding(crate::specs::Calls::framed))]
fn prepare(work: &mut Area, a: usize, row: usize, o: u32, p: u32)
    requires { (a + frame_bytes + frame_bytes ≤ work_bytes) × (row < most_statements) }
    ensures { work.new ≡ framed work.old a (a + frame_bytes) row o p }
{
    let b = a + Layout::FRAME_BYTES;
    run_heap::fill_words(work, b, Stores::VARIABLES, 0);
    tables::put_word(work, b, o);
    tables::put_word(work, b + Stores::PARAMETER_AT, p);
    tables::put_half(work, a + Stores::ROW_AT, row);
}

// One step more, in a call.
fn call_in(c: Counters, row: u32) -> Counters
    requires { ((c.steps < most_count) × (c.frames < most_frames)) × (c.base < work_bytes) }
    ensures { result ≡ called c row }
{
    Counters {
        objects: c.objects,
        fields: c.fields,
        frames: c.frames + 1,
        base: c.base + Layout::FRAME_BYTES,
        row: row,
        steps: c.steps + 1,
    }
}

// `call`: frames full, or the method's first row with a frame more. The receiver is an object, and requires holds.
pub fn call_step(work: &mut Area, c: Counters) -> Turn
    requires { CanStep work.old c × AtKind work.old c Call }
    ensures { Does work.old c work.new result }
{
    if Machine::FRAMES as u32 <= c.frames {
        return Err(Stop::FramesFull);
    }
    let row = c.row as usize;
    let b = lean_heap::base_of(c);
    let y = tables::y_at(work, row);
    let o = run_heap::variable(work, b, y);
    let z = tables::z_at(work, row);
    let p = run_heap::variable(work, b, z);
    let m = tables::member_at(work, row);
    let first = tables::first_row_at(work, m);
    prepare(work, b, row, o, p);
    Ok(Some(call_in(c, first as u32)))
}

// One step more, back in the caller.
fn back_in(c: Counters, row: u32) -> Counters
    requires { ((c.steps < most_count) × (1 ≤ c.frames)) × (frame_bytes ≤ c.base) }
    ensures { result ≡ back c row }
{
    Counters {
        objects: c.objects,
        fields: c.fields,
        frames: c.frames - 1,
        base: c.base - Layout::FRAME_BYTES,
        row: row,
        steps: c.steps + 1,
    }
}

// `return` and `end`: main's `end` is the last step; else the caller goes on, and its x is the result. Ensures holds.
pub fn back_step(work: &mut Area, c: Counters) -> Turn
    requires { CanStep work.old c × (AtKind work.old c Return ⊎ AtKind work.old c End) }
    ensures { Does work.old c work.new result }
{
    if c.frames == 1 {
        return Ok(None);
    }
    let b = lean_heap::base_of(c);
    let s = run_returns::source(work, c.row as usize);
    let n = run_heap::variable(work, b, s);
    let i = (c.frames - 2) as usize;
    let row = run_heap::saved_row(work, i);
    let x = tables::x_at(work, row);
    tables::put_word(work, b - Layout::FRAME_BYTES + x * Stores::WORD_BYTES, n);
    Ok(Some(back_in(c, row as u32 + 1)))
}

// Object i + 1, of a class with n fields, which are the cells from k on.
#[tactic(auto, unfolding(crate::specs::Calls::made))]
fn make_object(work: &mut Area, i: usize, k: usize, class: usize, n: usize)
    requires { ((i < heap_objects) × (k + n ≤ heap_fields)) × (class < most_classes) }
    ensures { work.new ≡ made work.old i k n class }
{
    let at = Layout::OBJECTS + i * Layout::OBJECT_BYTES;
    tables::put_byte(work, at, class);
    tables::put_half(work, at + Stores::FIRST_AT, k);
    run_heap::fill_words(work, Layout::VALUES + k * Stores::WORD_BYTES, n, 0);
}

// One step more, with an object of n fields more.
fn grow(c: Counters, n: u32) -> Counters
    requires { (c.steps < most_count) × ((c.objects < heap_objects) × ((c.fields + n ≤ heap_fields) × (c.row < most_statements))) }
    ensures { result ≡ larger c n }
{
    Counters {
        objects: c.objects + 1,
        fields: c.fields + n,
        frames: c.frames,
        base: c.base,
        row: c.row + 1,
        steps: c.steps + 1,
    }
}

// `new`: "22 only where `new` would pass 256 objects or 1,024 fields".
pub fn new_step(work: &mut Area, c: Counters) -> Turn
    requires { CanStep work.old c × AtKind work.old c New }
    ensures { Does work.old c work.new result }
{
    let row = c.row as usize;
    let class = tables::member_at(work, row);
    let n = tables::field_count_at(work, class);
    if Machine::OBJECTS as u32 <= c.objects {
        return Err(Stop::HeapFull);
    }
    let fields = c.fields + n as u32;
    if (Machine::FIELDS as u32) < fields {
        return Err(Stop::HeapFull);
    }
    let b = lean_heap::base_of(c);
    let x = tables::x_at(work, row);
    make_object(work, c.objects as usize, c.fields as usize, class, n);
    tables::put_word(work, b + x * Stores::WORD_BYTES, c.objects + 1);
    Ok(Some(grow(c, n as u32)))
}
