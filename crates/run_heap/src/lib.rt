// The machine's stores in the work area: values, objects, frames; a location found, tested and read. Who holds it is in `holders`.
#![tactic(auto)]

mod chains;
mod holders;
mod strides;

ghost use Rattle.std.specs.Prelude.{◌≡◌, suc, ◌+◌, ◌-◌, ◌*◌, ◌<◌, ◌≤◌, length};
ghost use Rattle.rules.specs.Limits.{most_statements, most_methods, most_classes, most_frames, heap_objects, heap_fields};
ghost use Rattle.tables.specs.Numbers.{half_values};
ghost use Rattle.tables.specs.Layout.{most_names, frame_variables};
ghost use Rattle.tables.specs.Decode.{left_at, right_at, atom_count};
ghost use Rattle.tables.specs.Tables.{SideFits};
ghost use Rattle.tables.specs.Stores.{meaning};
ghost use Rattle.run_heap.specs.Views.{word_size, frame_holder, variable_at, saved_holder, saved_row, method_of, prepared, made, cell_value, class_in, first_in, cell_of, present, found_of, found, Halves, spot, read_in, PlainIs, fill, answered, Readable, view_of};

pub use chains::{Cache, cache_of, cell_by, walk, walk_by, walk_end, whole_by};
use holders::held_cell;
pub use holders::{halves_held, hand_over};
use rules::Machine;
pub use strides::walk_strided;
use tables::{Area, ClassAt, Expr, Layout};

// Whose variables are read, where the heap ends, and who holds.
#[derive(Clone, Copy)]
pub struct View {
    pub base: usize,
    pub objects: usize,
    pub holder: u32,
}

// How the stores are laid out, beyond `Layout`.
#[derive(Clone, Copy)]
pub struct Stores {}

impl Stores {
    pub const WORD_BYTES: usize = 4;

    // The two holders of a cell.
    pub const HOLDER_BYTES: usize = 2 * Stores::WORD_BYTES;

    // How many halves of a location reading needs, and how many it has.
    pub const HALF: usize = 1;

    pub const WHOLE: usize = 2;

    // A frame's variables: `this`, w, 12 locals, `result`.
    pub const VARIABLES: usize = 15;

    // The number of `result`, and where its value stands in a frame.
    pub const RESULT: usize = 14;

    pub const RESULT_AT: usize = Stores::RESULT * Stores::WORD_BYTES;

    // Where a frame keeps the value of w, the number by which it holds, its row and its method.
    pub const PARAMETER_AT: usize = Stores::WORD_BYTES;

    pub const HOLDER_AT: usize = Stores::VARIABLES * Stores::WORD_BYTES;

    pub const ROW_AT: usize = Stores::HOLDER_AT + Stores::WORD_BYTES;

    pub const METHOD_AT: usize = Stores::ROW_AT + 2;

    // Where an object keeps the number of its first cell, after its class.
    pub const FIRST_AT: usize = 2;
}

// Why a step is not done.
#[derive(Clone, Copy)]
pub enum Fault {
    HeapFull,
    FramesFull,
    Permission,
    Null,
    False,
    Overflow,
}

// A variable of the frame at b.
#[tactic(auto, unfolding(crate::specs::Views::variable_at))]
pub fn variable(work: &Area, b: usize, x: usize) -> u32
    requires { (b + frame_holder ≤ length work.now) × (x < frame_variables) }
    ensures { result ≡ variable_at work.now b x }
{
    tables::word_at(work, b + x * Stores::WORD_BYTES)
}

// The value of the cell k.
#[tactic(auto, unfolding(crate::specs::Views::cell_value))]
pub fn cell_value(work: &Area, k: usize) -> u32
    requires { k < heap_fields }
    ensures { result ≡ cell_value work.now k }
{
    tables::word_at(work, Layout::VALUES + k * Stores::WORD_BYTES)
}

// The class of object i + 1.
#[tactic(auto, unfolding(crate::specs::Views::class_in))]
fn class_of(work: &Area, i: usize) -> usize
    requires { i < heap_objects }
    ensures { result ≡ class_in work.now i }
{
    tables::byte_at(work, Layout::OBJECTS + i * Layout::OBJECT_BYTES)
}

// Its first cell.
#[tactic(auto, unfolding(crate::specs::Views::first_in))]
fn first_of(work: &Area, i: usize) -> usize
    requires { i < heap_objects }
    ensures { (result ≡ first_in work.now i) × (result < half_values) }
{
    tables::half_at(
        work,
        Layout::OBJECTS + i * Layout::OBJECT_BYTES + Stores::FIRST_AT,
    )
}

// The cell of the field named f of object i + 1.
fn cell_at(work: &Area, v: View, i: usize, f: usize) -> Result<usize, Fault>
    requires { Readable work.now v × ((i < v.objects) × (f < most_names)) }
    ensures { answered result ≡ present (cell_of work.now v.objects (suc i) f) }
{
    let c = class_of(work, i);
    let p = tables::place_at(work, c, f);
    if p == ClassAt::NO_PLACE {
        return Err(Fault::Permission);
    }
    let k = first_of(work, i) + p;
    Ok(k)
}

// The cell of a field of the object o.
pub fn cell_of(work: &Area, v: View, o: u32, f: usize) -> Result<usize, Fault>
    requires { Readable work.now v × (f < most_names) }
    ensures { answered result ≡ found_of work.now v.objects o f }
{
    if o == 0 {
        return Err(Fault::Null);
    }
    let i = (o - 1) as usize;
    if v.objects <= i {
        return Err(Fault::Permission);
    }
    cell_at(work, v, i, f)
}

// The cell of `x.f`, whoever holds it.
#[tactic(auto, unfolding(crate::specs::Views::found))]
pub fn find(work: &Area, v: View, x: usize, f: usize) -> Result<usize, Fault>
    requires { Readable work.now v × ((x < frame_variables) × (f < most_names)) }
    ensures { answered result ≡ found work.now v x f }
{
    let o = variable(work, v.base, x);
    cell_of(work, v, o, f)
}

// The cell of `x.f`, of which the view's number must hold n halves: "of a null is 25, of a location not in A .. 24".
pub fn locate(work: &Area, v: View, n: usize, x: usize, f: usize) -> Result<usize, Fault>
    requires { (Readable work.now v × Halves n) × ((x < frame_variables) × (f < most_names)) }
    ensures { answered result ≡ spot work.now v n x f }
{
    let k = find(work, v, x, f)?;
    held_cell(work, v.holder, n, k)
}

// The value of an expression that is no path.
#[tactic(auto, unfolding(tables::specs::Tables::SideFits, tables::specs::Stores::meaning))]
fn plain(work: &Area, v: View, e: Expr) -> u32
    requires { Readable work.now v × SideFits (meaning e) }
    ensures { PlainIs work.now v e result }
{
    match e {
        Expr::Num(n) => n,
        Expr::Null => 0,
        Expr::Var(x) => variable(work, v.base, x),
        Expr::Path(_, _) => 0,
    }
}

// "reading a path needs its location in A"; W8: "Reading needs one half"
#[tactic(auto, unfolding(crate::specs::Views::answered, tables::specs::Tables::SideFits, tables::specs::Stores::meaning, crate::specs::Views::read_in))]
fn value(work: &Area, v: View, e: Expr) -> Result<u32, Fault>
    requires { Readable work.now v × SideFits (meaning e) }
    ensures { answered result ≡ read_in work.now v (meaning e) }
{
    let Expr::Path(x, f) = e else {
        return Ok(plain(work, v, e));
    };
    let k = locate(work, v, Stores::HALF, x, f)?;
    Ok(cell_value(work, k))
}

// The value of the left side of the atom a.
pub fn left(work: &Area, v: View, a: usize) -> Result<u32, Fault>
    requires { Readable work.now v × (a < atom_count work.now) }
    ensures { answered result ≡ read_in work.now v (left_at work.now a) }
{
    value(work, v, tables::left_at(work, a))
}

// The value of its right side.
pub fn right(work: &Area, v: View, a: usize) -> Result<u32, Fault>
    requires { Readable work.now v × (a < atom_count work.now) }
    ensures { answered result ≡ read_in work.now v (right_at work.now a) }
{
    value(work, v, tables::right_at(work, a))
}

// n words v from the byte `at` on.
pub fn fill_words(work: &mut Area, at: usize, n: usize, v: u32)
    requires { at + n * word_size ≤ length work.old }
    ensures { work.new ≡ fill work.old at n v }
{
    for i in 0..n {
        tables::put_word(work, at + i * Stores::WORD_BYTES, v);
    }
}

// The view of the running frame.
pub fn view_of(c: Machine) -> View
    requires { (1 ≤ c.frames) × (c.frames ≤ most_frames) }
    ensures { result ≡ view_of c }
{
    let i = c.frames - 1;
    View {
        base: Layout::FRAMES + i as usize * Layout::FRAME_BYTES,
        objects: c.objects as usize,
        holder: c.holder,
    }
}

#[tactic(auto, unfolding(crate::specs::Views::saved_holder))]
pub fn saved_holder(work: &Area, i: usize) -> u32
    requires { i < most_frames }
    ensures { result ≡ saved_holder work.now i }
{
    let at = Layout::FRAMES + i * Layout::FRAME_BYTES;
    tables::word_at(work, at + Stores::HOLDER_AT)
}

#[tactic(auto, unfolding(crate::specs::Views::saved_row))]
pub fn saved_row(work: &Area, i: usize) -> usize
    requires { i < most_frames }
    ensures { (result ≡ saved_row work.now i) × (result < half_values) }
{
    tables::half_at(
        work,
        Layout::FRAMES + i * Layout::FRAME_BYTES + Stores::ROW_AT,
    )
}

#[tactic(auto, unfolding(crate::specs::Views::method_of))]
pub fn method_of(work: &Area, i: usize) -> usize
    requires { i < most_frames }
    ensures { result ≡ method_of work.now i }
{
    tables::byte_at(
        work,
        Layout::FRAMES + i * Layout::FRAME_BYTES + Stores::METHOD_AT,
    )
}

// The place of the next frame, and what the running one must keep.
#[tactic(auto, unfolding(crate::specs::Views::frame_put))]
pub fn prepare(work: &mut Area, c: Machine, m: usize, o: u32, p: u32)
    requires { ((1 ≤ c.frames) × (c.frames ≤ most_frames)) × ((c.row < most_statements) × (m < most_methods)) }
    ensures { work.new ≡ prepared work.old c m o p }
{
    let i = (c.frames - 1) as usize;
    let j = c.frames as usize;
    let a = Layout::FRAMES + i * Layout::FRAME_BYTES;
    let b = Layout::FRAMES + j * Layout::FRAME_BYTES;
    fill_words(work, b, Stores::VARIABLES, 0);
    tables::put_word(work, b, o);
    tables::put_word(work, b + Stores::PARAMETER_AT, p);
    tables::put_word(work, a + Stores::HOLDER_AT, c.holder);
    tables::put_half(work, a + Stores::ROW_AT, c.row as usize);
    tables::put_byte(work, b + Stores::METHOD_AT, m);
}

// Object number `objects` + 1, of a class with n fields, which are the running frame's, both halves.
#[tactic(auto, unfolding(crate::specs::Views::made))]
pub fn make_object(work: &mut Area, c: Machine, class: usize, n: usize)
    requires { ((c.objects < heap_objects) × (c.fields + n ≤ heap_fields)) × (class < most_classes) }
    ensures { work.new ≡ made work.old c.objects c.fields n class c.holder }
{
    let i = c.objects as usize;
    let k = c.fields as usize;
    let at = Layout::OBJECTS + i * Layout::OBJECT_BYTES;
    tables::put_byte(work, at, class);
    tables::put_half(work, at + Stores::FIRST_AT, k);
    fill_words(work, Layout::VALUES + k * Stores::WORD_BYTES, n, 0);
    fill_words(
        work,
        Layout::HOLDERS + k * Stores::HOLDER_BYTES,
        n * Stores::WHOLE,
        c.holder,
    );
}
