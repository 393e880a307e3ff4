// The lean machine's stores: heap and frames in the work area without holders, and what an accepted script reads there without a test.
#![tactic(auto)]

ghost use Rattle.std.specs.Prelude.{◌≡◌, ◌+◌, ◌-◌, ◌≤◌, ◌<◌, length};
ghost use Rattle.rules.specs.Limits.{work_bytes, most_frames, heap_fields};
ghost use Rattle.tables.specs.Layout.{most_names, frame_variables};
ghost use Rattle.tables.specs.Stores.{meaning};
ghost use Rattle.run_heap.specs.Views.{frame_holder, frame_at, variable_at, cell_value};
ghost use Rattle.run_steps.specs.States.{most_count};
ghost use Rattle.lean_heap.specs.Ghosts.{There, cell_in, value_in, Readable, stepped};

use run_heap::Stores;
use tables::{Area, Expr, Layout};

// The lean machine's counters.
#[derive(Clone, Copy)]
pub struct Counters {
    pub objects: u32,
    pub fields: u32,
    pub frames: u32,
    // where the last of these stands
    pub base: usize,
    pub row: u32,
    pub steps: u32,
}

// Why a step is not done: 24, 25 and 26 are not among it.
#[derive(Clone, Copy)]
pub enum Stop {
    HeapFull,
    FramesFull,
    Overflow,
}

// What became of a step: on to the next, or none after main's `end`; or why it is not done.
pub type Turn = Result<Option<Counters>, Stop>;

// Where the running frame stands.
pub fn base_of(c: Counters) -> usize
    requires { ((1 ≤ c.frames) × (c.frames ≤ most_frames)) × (c.base ≡ frame_at (c.frames - 1)) }
    ensures { (result ≡ frame_at (c.frames - 1)) × (result + frame_holder ≤ work_bytes) }
{
    c.base
}

// The cell of a field of the object o.
pub fn cell_of(work: &Area, o: u32, f: usize) -> usize
    requires { There work.now o f × (f < most_names) }
    ensures { (result ≡ cell_in work.now o f) × (result < heap_fields) }
{
    let i = (o - 1) as usize;
    let at = Layout::OBJECTS + i * Layout::OBJECT_BYTES;
    let c = tables::byte_at(work, at);
    let first = tables::half_at(work, at + Stores::FIRST_AT);
    first + tables::place_at(work, c, f)
}

// The value of `x.f`, by the frame at b.
#[tactic(auto, unfolding(run_heap::specs::Views::cell_value))]
pub fn path_value(work: &Area, b: usize, x: usize, f: usize) -> u32
    requires { ((b + frame_holder ≤ length work.now) × (x < frame_variables)) × ((f < most_names) × There work.now (variable_at work.now b x) f) }
    ensures { result ≡ cell_value work.now (cell_in work.now (variable_at work.now b x) f) }
{
    let o = run_heap::variable(work, b, x);
    let k = cell_of(work, o, f);
    tables::word_at(work, Layout::VALUES + k * Stores::WORD_BYTES)
}

// The value of an expression, by the frame at b.
#[tactic(auto, unfolding(crate::specs::Ghosts::value_in, tables::specs::Stores::meaning))]
pub fn value(work: &Area, b: usize, e: Expr) -> u32
    requires { (b + frame_holder ≤ length work.now) × Readable work.now b e }
    ensures { result ≡ value_in work.now b (meaning e) }
{
    match e {
        Expr::Num(n) => n,
        Expr::Null => 0,
        Expr::Var(x) => run_heap::variable(work, b, x),
        Expr::Path(x, f) => path_value(work, b, x, f),
    }
}

// One step more, on to a row.
pub fn next(c: Counters, row: u32) -> Counters
    requires { c.steps < most_count }
    ensures { result ≡ stepped c row }
{
    Counters {
        objects: c.objects,
        fields: c.fields,
        frames: c.frames,
        base: c.base,
        row: row,
        steps: c.steps + 1,
    }
}
